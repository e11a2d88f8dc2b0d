// The image of a state: written into a lent buffer, and read back.
#![tactic(auto)]

pub mod read;
pub mod write;

ghost use Rattle.std.specs.Prelude.{◌≡◌};
ghost use Rattle.cluster.specs.Answer.{outcome_of};
ghost use Rattle.images.specs.Answer.{written_of};
ghost use Rattle.images.specs.Image.{write_image, buffer_after};
ghost use Rattle.images.specs.Read.{read_image};

use cluster::{Refused, State};
use parts::refusal::Refusal;

// The second byte of the mark of a state image, 4B 53.
const MARK_SECOND: u8 = 83;

// How many bytes the first part and a request have.
const HEADER_WIDTH: usize = 10;

const REQUEST_WIDTH: usize = 2;

// Where in the first part these stand.
const REPLICA_COUNT_PLACE: usize = 2;

const LOG_SIZE_PLACE: usize = 3;

const NEXT_EPOCH_PLACE: usize = 6;

const NEXT_ID_PLACE: usize = 7;

const QUORUM_LEADER_PLACE: usize = 8;

const QUORUM_ISR_PLACE: usize = 9;

// The most bytes that an image has.
pub const LONGEST: usize = 227;

// Writes the image of a state at the front of a lent buffer, and answers the image's length; bytes beyond it stay. Refused by the
// first state rule that the state breaks, and then where the buffer is shorter than the image; refused, it writes nothing.
pub fn write_image(s: State, out: &mut [u8]) -> Result<usize, Refusal>
    ensures { (written_of result ≡ write_image s out.old) × (out.new ≡ buffer_after s out.old) }
{
    let valid = s.validate()?;
    if out.len() < write::image_length(valid) {
        return Err(Refusal::BufferShort);
    }
    Ok(write::put_image(out, valid))
}

// Reads an image: the state with zeros in its unused room. Refused by its bytes, and then by the first state rule that its state
// breaks; refused, the state is all zeros.
#[tactic(auto, using(crate::specs::ReadLaws::read_unlaid, crate::specs::ReadLaws::read_met, crate::specs::ReadLaws::read_broken))]
pub fn read_image(bytes: &[u8]) -> Result<State, Refused>
    ensures { outcome_of result ≡ read_image bytes.now }
{
    read::check_layout(bytes).map_err(read::refused)?;
    let valid = read::state_of(bytes).validate().map_err(read::refused)?;
    Ok(valid.state)
}
