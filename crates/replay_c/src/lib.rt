// The exports of the archive for C, Rust or anything that calls C: each is the function of that name of the library `replay`, with
// its clauses. In C a slice is a pointer and then a length.
#![tactic(auto)]

ghost use Rattle.std.specs.Prelude.{◌≡◌};
ghost use Rattle.replay.specs.Interface.{Replies, number_and_length, number_and_member, member_named_by, out_after, replay_fresh, replay_act, replay_weak, replay_strong, replay_offer, replay_write_image, replay_read_image, replay_rename, replay_representative, replay_judge};

// The fresh state of a configuration.
#[unsafe(no_mangle)]
pub extern "C" fn replay_fresh(r: u8, l: u8, m: u8, x: u8, out: &mut [u8]) -> u8
    ensures { Replies (replay_fresh r l m x) out.old result out.new }
{
    replay::replay_fresh(r, l, m, x, &mut out[..])
}

// The state after an action. Returns the number and 256 times the member that the answer names, which is 0 beside any other number
// than 48 and 49.
#[unsafe(no_mangle)]
pub extern "C" fn replay_act(state: &[u8], kind: u8, a: u8, b: u8, e: u8, out: &mut [u8]) -> u32
    ensures { (result ≡ number_and_member (replay_act state.now kind a b e) (member_named_by state.now kind a b e) out.old) × (out.new ≡ out_after (replay_act state.now kind a b e) out.old) }
{
    replay::replay_act(state, kind, a, b, e, &mut out[..])
}

// Whether weak ISR holds, or its smallest failure.
#[unsafe(no_mangle)]
pub extern "C" fn replay_weak(state: &[u8], out: &mut [u8]) -> u8
    ensures { Replies (replay_weak state.now) out.old result out.new }
{
    replay::replay_weak(state, &mut out[..])
}

// Whether strong ISR holds, or its smallest failure.
#[unsafe(no_mangle)]
pub extern "C" fn replay_strong(state: &[u8], out: &mut [u8]) -> u8
    ensures { Replies (replay_strong state.now) out.old result out.new }
{
    replay::replay_strong(state, &mut out[..])
}

// The operands of the smallest accepted action of a kind.
#[unsafe(no_mangle)]
pub extern "C" fn replay_offer(state: &[u8], kind: u8, out: &mut [u8]) -> u8
    ensures { Replies (replay_offer state.now kind) out.old result out.new }
{
    replay::replay_offer(state, kind, &mut out[..])
}

// The image of a state. Returns the number and 256 times the image's length, which is 0 when refused.
#[unsafe(no_mangle)]
pub extern "C" fn replay_write_image(state: &[u8], out: &mut [u8]) -> u32
    ensures { (result ≡ number_and_length (replay_write_image state.now) out.old) × (out.new ≡ out_after (replay_write_image state.now) out.old) }
{
    replay::replay_write_image(state, &mut out[..])
}

// The state of an image. None is made where the image is refused by its bytes.
#[unsafe(no_mangle)]
pub extern "C" fn replay_read_image(bytes: &[u8], out: &mut [u8]) -> u8
    ensures { Replies (replay_read_image bytes.now) out.old result out.new }
{
    replay::replay_read_image(bytes, &mut out[..])
}

// The state under a renaming.
#[unsafe(no_mangle)]
pub extern "C" fn replay_rename(state: &[u8], places: &[u8], out: &mut [u8]) -> u8
    ensures { Replies (replay_rename state.now places.now) out.old result out.new }
{
    replay::replay_rename(state, places, &mut out[..])
}

// The representative of a state.
#[unsafe(no_mangle)]
pub extern "C" fn replay_representative(state: &[u8], out: &mut [u8]) -> u8
    ensures { Replies (replay_representative state.now) out.old result out.new }
{
    replay::replay_representative(state, &mut out[..])
}

// The verdict of a run. It refuses only by 24: the refusal of a run is a field of its verdict.
#[unsafe(no_mangle)]
pub extern "C" fn replay_judge(run: &[u8], out: &mut [u8]) -> u8
    ensures { Replies (replay_judge run.now) out.old result out.new }
{
    replay::replay_judge(run, &mut out[..])
}
