// What a registration needs to go on.
ghost use Rattle.checks.specs.Decisions.{Registers};

use endpoints::Endpoint;
use icbmsg::Numbers;
use refusal::Refusal;

// The place for a new endpoint, and its name as it is kept.
#[derive(Clone, Copy)]
pub struct Registering {
    pub place: usize,
    pub name: [u8; 32],
}

// Checks 6, 20, 21 and 22, with `lent` bytes lent of the transmit region.
pub fn register(
    n: Numbers,
    endpoints: &[Endpoint; endpoints::PLACES],
    lent: usize,
    name: &[u8],
) -> Result<Registering, Refusal>
    ensures { Registers result n endpoints.now lent name.now }
{
    if !crate::is_whole(n, n.tx, lent) {
        return Err(Refusal::WrongRegion);
    }
    if !endpoints::is_good_name(name, endpoints::LONGEST_NAME) {
        return Err(Refusal::BadName);
    }
    let kept = blocks::framing::padded(name, 0, name.len());
    let taken = endpoints::is_registered(endpoints, &kept);
    if taken {
        return Err(Refusal::NameTaken);
    }
    let place = endpoints::find_unused(endpoints).ok_or(Refusal::NoPlace)?;
    Ok(Registering { place, name: kept })
}
