// One block of cells as a ring: the item at place 0 stands at the head, and the places go round the end of the block.
ghost use Rattle.std.specs.Prelude.{◌≡◌, ℕ, ◌+◌, ◌-◌, ◌<◌, ◌≤◌, List, [], ◌∷◌, ◌++◌, length};
ghost use Rattle.std.proofs.Math.Seq.{paste};
ghost use Rattle.std.specs.List.{insert};
ghost use Rattle.row.specs.Rings.{ring};

// Moves all cells of a run but the last one place up.
fn move_up<T: Copy>(run: &mut [T])
    requires { 0 < length run.old }
    ensures { run.new ≡ paste run.old 1 run.old (length run.old - 1 - 0) }
{
    let n = run.len();
    run.copy_within(0..n - 1, 1);
}

// Puts `x` before a run of cells, which move one place up, and gives back the last of them, which falls out.
fn push_front<T: Copy>(run: &mut [T], x: T) -> T
    ensures { x ∷ run.old ≡ run.new ++ result ∷ [] }
{
    let Some(&out) = run.last() else {
        return x;
    };
    move_up(run);
    run[0] = x;
    out
}

// Puts `x` behind a run of cells, which move one place down, and gives back the first of them, which falls out.
fn push_back<T: Copy>(run: &mut [T], x: T) -> T
    ensures { run.old ++ x ∷ [] ≡ result ∷ run.new }
{
    let Some(&out) = run.first() else {
        return x;
    };
    let n = run.len();
    run.copy_within(1..n, 0);
    run[n - 1] = x;
    out
}

/// Puts `x` at place `to`; the items from there up to `stop` move one place up, and the last of them falls out.
pub(crate) fn shift_up<T: Copy>(block: &mut [T], head: usize, to: usize, stop: usize, x: T) -> T
    requires head { head ≤ length block.old }
    requires forward { to ≤ stop }
    requires within { stop ≤ length block.old }
    ensures { insert (ring head block.old) to x ≡ insert (ring head block.new) stop result }
{
    let n = block.len();
    let near = n - head;
    if stop <= near {
        push_front(&mut block[head + to..head + stop], x)
    } else if to < near {
        let carried = push_front(&mut block[head + to..n], x);
        push_front(&mut block[0..stop - near], carried)
    } else {
        push_front(&mut block[to - near..stop - near], x)
    }
}

/// Takes out the item at place `to`; those behind it, up to `stop`, move one place down, and `x` follows them.
pub(crate) fn shift_down<T: Copy>(block: &mut [T], head: usize, to: usize, stop: usize, x: T) -> T
    requires head { head ≤ length block.old }
    requires forward { to ≤ stop }
    requires within { stop ≤ length block.old }
    ensures { insert (ring head block.old) stop x ≡ insert (ring head block.new) to result }
{
    let n = block.len();
    let near = n - head;
    if stop <= near {
        push_back(&mut block[head + to..head + stop], x)
    } else if to < near {
        let carried = push_back(&mut block[0..stop - near], x);
        push_back(&mut block[head + to..n], carried)
    } else {
        push_back(&mut block[to - near..stop - near], x)
    }
}
