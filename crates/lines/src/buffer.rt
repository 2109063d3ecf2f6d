// The line that is being read.
ghost use Rattle.std.specs.Prelude.{◌≤◌};
ghost use Rattle.arrayvec.specs.ArrayVec.{array_vec_len};

use arrayvec::ArrayVec;
use std::io::Write;

/// The most bytes that a line may have, its end not counted.
pub const LONGEST_LINE: usize = 256;

// One byte more, to tell a line that is too long.
const KEPT: usize = 257;

// Fewer bytes than these are added and cleared one at a time: the library's copy and fill are calls of
// C functions, and take longer for so few.
const FEW: usize = 4;

/// The first 257 bytes of a line.
#[derive(Drop)]
pub struct LineBuffer {
    bytes: ArrayVec<u8, KEPT>,
    ghost within: { array_vec_len bytes ≤ 257 },
}

impl LineBuffer {
    ghost use Rattle.std.specs.Prelude.{◌≡◌, [], ◌∷◌, ◌++◌, length, take};
    ghost use Rattle.std.specs.Option.{unwrap_or};
    ghost use Rattle.lines.specs.Buffer.{contents, kept};
    ghost use Rattle.lines.specs.Position.{FirstPlace};

    /// An empty line.
    pub fn new() -> LineBuffer
        ensures { contents result ≡ [] }
    {
        LineBuffer {
            bytes: ArrayVec::new(),
        }
    }

    /// Begins a new line.
    pub fn clear(&mut self)
        ensures { contents self.new ≡ [] }
    {
        if self.bytes.len() < FEW {
            for _ in 0..self.bytes.len() {
                let _last = self.bytes.pop();
            }
        } else {
            self.bytes.clear();
        }
    }

    /// What is kept of the line.
    pub fn as_bytes(&self) -> &[u8]
        ensures { result.now ≡ contents self.now }
    {
        self.bytes.as_slice()
    }

    /// Adds a byte to the line, if there is room.
    pub fn push(&mut self, byte: u8)
        ensures { contents self.new ≡ kept (contents self.old ++ byte ∷ []) }
    {
        let _fits = self.bytes.try_push(byte);
    }

    /// Adds a block up to the line's end, and answers where in the block the end is, if it is there.
    pub fn add_block(&mut self, block: &[u8]) -> Option<usize>
        ensures end { FirstPlace 10 block.now result }
        ensures added { contents self.new ≡ kept (contents self.old ++ take (unwrap_or result (length block.now)) block.now) }
    {
        let end = block.iter().position(|&b| b == b'\n');
        self.extend(&block[..end.unwrap_or(block.len())]);
        end
    }

    // What finds no room is dropped: a write takes as many bytes as fit.
    fn extend(&mut self, bytes: &[u8])
        ensures { contents self.new ≡ kept (contents self.old ++ bytes.now) }
    {
        if bytes.len() < FEW {
            self.push_each(bytes);
        } else {
            let _taken = self.bytes.write(bytes);
        }
    }

    fn push_each(&mut self, bytes: &[u8])
        ensures { contents self.new ≡ kept (contents self.old ++ bytes.now) }
    {
        for &byte in bytes {
            self.push(byte);
        }
    }
}
