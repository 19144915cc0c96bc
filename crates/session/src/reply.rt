// Bytes for a lent buffer, if they have room in it.
ghost use Rattle.std.specs.Prelude.{length};
ghost use Rattle.command.specs.Answer.{Meets};
ghost use Rattle.session.specs.Outcome.{handed};

use command::{Answer, Refusal};
use text::write::put_all;

// The bytes at the front of the buffer, or refusal 15 where they have no room.
pub fn hand(reply: &mut [u8], bytes: &[u8]) -> Answer
    ensures { Meets (handed (length reply.old) bytes.now) reply.old reply.new result }
{
    if reply.len() < bytes.len() {
        return Err(Refusal::TooShort);
    }
    Ok(put_all(reply, 0, bytes))
}
