// What the functions that answer by a number alone do, with a refusal as an error. Its number is what C sees.
#![tactic(auto, using(crate::specs::InterfaceLaws::on_state_number, crate::specs::InterfaceLaws::on_state_after), unfolding(crate::specs::Interface::replay_offer, crate::specs::Interface::replay_rename, crate::specs::Interface::replay_representative))]

ghost use Rattle.parts.specs.Refusal.{answer_number};
ghost use Rattle.questions.specs.Isr.{ask_isr};
ghost use Rattle.replay.specs.Interface.{Replies, on_state, isr_reply, replay_offer, replay_read_image, replay_rename, replay_representative};

use crate::{give, take};
use flat::read::state_of;
use images::read;
use parts::refusal::Refusal;
use questions::Property;

// Whether weak or strong ISR holds, or its smallest failure.
pub(crate) fn isr(property: Property, state: &[u8], out: &mut [u8]) -> Result<(), Refusal>
    ensures { Replies (on_state state.now (λ s. isr_reply (ask_isr property s))) out.old (answer_number result) out.new }
{
    take::check_width(state)?;
    give::give_isr(questions::ask_isr(property, state_of(state)), out)
}

// The operands of the smallest accepted action of a kind.
pub(crate) fn offer(state: &[u8], kind: u8, out: &mut [u8]) -> Result<(), Refusal>
    ensures { Replies (replay_offer state.now kind) out.old (answer_number result) out.new }
{
    take::check_width(state)?;
    give::give_offer(questions::offer(state_of(state), kind), out)
}

// The state of an image. None is made where the image is refused by its bytes.
pub(crate) fn read_image(bytes: &[u8], out: &mut [u8]) -> Result<(), Refusal>
    ensures { Replies (replay_read_image bytes.now) out.old (answer_number result) out.new }
{
    read::check_layout(bytes)?;
    let valid = read::state_of(bytes).validate()?;
    give::give_state(&valid.state, out)
}

// The state under a renaming.
pub(crate) fn rename(state: &[u8], places: &[u8], out: &mut [u8]) -> Result<(), Refusal>
    ensures { Replies (replay_rename state.now places.now) out.old (answer_number result) out.new }
{
    take::check_width(state)?;
    give::give_outcome(&take::rename_by(state_of(state), places), out)
}

// The representative of a state.
pub(crate) fn representative(state: &[u8], out: &mut [u8]) -> Result<(), Refusal>
    ensures { Replies (replay_representative state.now) out.old (answer_number result) out.new }
{
    take::check_width(state)?;
    give::give_outcome(&representatives::representative(state_of(state)), out)
}
