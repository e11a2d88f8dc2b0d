// Bytes put at a place of a lent buffer; the place behind them is answered. The place goes beside the whole buffer, since a clause says
// that what stands before it stays.
ghost use Rattle.std.specs.Prelude.{ℕ, List, ◌+◌, ◌≤◌, length};
ghost use Rattle.logic.specs.Concat.{concat_below};
ghost use Rattle.logic.specs.Stores.{Stored};
ghost use Rattle.parts.specs.Puts.{Puts};

// The bytes of a slice or an array, one after the other. The caller shows that the buffer has room for them.
pub fn put_bytes(out: &mut [u8], at: usize, bytes: &[u8]) -> usize
    requires { at + length bytes.now ≤ length out.old }
    ensures { Stored out.old at bytes.now out.new result }
{
    let end = at + bytes.len();
    out[at..end].copy_from_slice(bytes);
    end
}

// The items of a slice, one after the other, each put by `put`. The caller shows which bytes `put` stores at each item, and that the
// buffer has room for them all.
pub fn put_each<T: Copy, F: Fn(&mut [u8], usize, T) -> usize>(
    out: &mut [u8],
    at: usize,
    items: &[T],
    put: F,
) -> usize
    requires { (bytes : ℕ → List ℕ) × Puts F.Fn put items.now bytes × (at + length (concat_below (length items.now) bytes) ≤ length out.old) }
    ensures { (bytes : ℕ → List ℕ) → Puts F.Fn put items.now bytes → at + length (concat_below (length items.now) bytes) ≤ length out.old → Stored out.old at (concat_below (length items.now) bytes) out.new result }
{
    let mut pos = at;
    for item in items {
        pos = put(out, pos, *item);
    }
    pos
}
