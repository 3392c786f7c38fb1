// One service turn: packets off the receive ring, each handed over as an arriving control message (docs/RULES.md, W).
ghost use Rattle.std.specs.Prelude.{◌≡◌};
ghost use Rattle.icbmsg.specs.Turns.{served, turn_of};
ghost use Rattle.link.specs.Answers.{end_of};
ghost use Rattle.link.specs.Turns.{StopsAs, served_of, turned_of, at_error};

use crate::{Answer, End, PacketError, Stop, Turned};
use refusal::Refusal;

// Why the turn stops where no packet was taken.
fn at_pull(x: PacketError) -> Stop
    ensures { result ≡ at_error x }
{
    match x {
        PacketError::Refused(x) => Stop::Refused(x),
        PacketError::Dropped(n) => Stop::Dropped(n),
    }
}

// Why it stops behind an arrival, if it does: a data message and a reply are for the caller.
fn behind(answer: Result<Answer, Refusal>) -> Option<Stop>
    ensures { StopsAs result answer }
{
    match answer {
        Ok(
            Answer::Delivered {
                address,
                block,
                length,
            },
        ) => Some(Stop::Delivered {
            address,
            block,
            length,
        }),
        Ok(
            Answer::Control {
                kind,
                address,
                block,
            },
        ) => Some(Stop::Reply {
            kind,
            address,
            block,
        }),
        Ok(Answer::Accepted) => None,
        Ok(Answer::Run { start: _, count: _ }) => None,
        Err(_) => None,
    }
}

impl End {
    // Takes the next packet off the ring, and hands over as many of its first three bytes as it has: the control rules use no more.
    fn serve(&mut self, rx: &mut [u8]) -> Result<Result<Answer, Refusal>, PacketError>
        ensures { served_of result rx.new (end_of self.new) ≡ served (end_of self.old) rx.old }
    {
        let mut buffer = [0u8; 3];
        let k = self.pull(rx, &mut buffer)?;
        let n = (k as usize).min(3);
        Ok(self.arrival(rx, &buffer[..n]))
    }

    // Takes at most `most` packets off the receive ring, and hands each over as an arriving control message, until there is something for the caller to
    // do.
    pub fn turn(&mut self, rx: &mut [u8], most: u32) -> Turned
        ensures { turned_of result rx.new (end_of self.new) ≡ turn_of (end_of self.old) rx.old most }
    {
        if !checks::is_whole(self.numbers, self.numbers.rx, rx.len()) {
            return Turned {
                taken: 0,
                stop: Stop::Refused(Refusal::WrongRegion),
            };
        }
        for taken in 0..most {
            match self.serve(rx) {
                Err(x) => {
                    return Turned {
                        taken,
                        stop: at_pull(x),
                    };
                }
                Ok(answer) => {
                    if let Some(stop) = behind(answer) {
                        return Turned {
                            taken: taken + 1,
                            stop,
                        };
                    }
                }
            }
        }
        Turned {
            taken: most,
            stop: Stop::Reached,
        }
    }
}
