// Endpoints and stored bindings, by name and address: eight of each, searched from the lowest place.
#![tactic(auto)]

ghost use Rattle.std.specs.Prelude.{not, ◌≡◌, ◌<◌};
ghost use Rattle.blocks.specs.Search.{found_at};
ghost use Rattle.blocks.specs.Tables.{search_of, FoundBelow};
ghost use Rattle.endpoints.specs.Endpoints.{is_unused, at, bound_at, uses, has_address, waiting_at, receives_at, registered_as, waiting_as, clashes_as, holds_as, clashes_stored_as, bound_now, IsAddressee, endpoint_at, binding_at, some_endpoint, some_binding, unused_from, good_name};

#[derive(Clone, Copy, PartialEq, Eq)]
pub enum Stage {
    Unused,
    Waiting,
    Bound,
}

// An endpoint's name has zeros behind it.
#[derive(Clone, Copy)]
pub struct Endpoint {
    pub stage: Stage,
    pub address: u8,
    pub name: [u8; 32],
}

// A binding that arrived before its endpoint was registered: where its message lies, and what it says. A flag and no Option, since the rules
// speak of its fields (`holds` of specs/Endpoints, `no_binding`).
#[derive(Clone, Copy)]
pub struct Binding {
    pub stored: bool,
    pub address: u8,
    pub start: u16,
    pub count: u16,
    pub name: [u8; 32],
}

// A place that no endpoint has, and one that no binding has.
pub const NO_ENDPOINT: Endpoint = Endpoint {
    stage: Stage::Unused,
    address: 0,
    name: [0; 32],
};

pub const NO_BINDING: Binding = Binding {
    stored: false,
    address: 0,
    start: 0,
    count: 0,
    name: [0; 32],
};

// The number of places for endpoints, and of places for bindings.
pub const PLACES: usize = 8;

// The bytes of a name at most.
pub const LONGEST_NAME: usize = 31;

// As many addresses as places are enough: one is unused as long as a place is.
const ADDRESSES: u8 = PLACES as u8;

// Whether a name has a byte, no more than the longest may have, and none that is zero.
pub fn is_good_name(name: &[u8], longest: usize) -> bool
    ensures { result ≡ good_name longest name.now }
{
    if name.is_empty() || longest < name.len() {
        return false;
    }
    !name.iter().any(|b| *b == 0)
}

// ---- endpoints. A name is searched for as it is kept, with zeros behind it

impl Endpoint {
    pub fn is_bound_to(&self, address: u8) -> bool
        ensures { result ≡ bound_at address self.now }
    {
        self.stage == Stage::Bound && self.address == address
    }

    // Whether it has its address: an initiator's endpoint from when it is registered on, a follower's from when it is bound.
    fn has_address(&self, initiator: bool) -> bool
        ensures { result ≡ has_address initiator self.now }
    {
        match self.stage {
            Stage::Unused => false,
            Stage::Waiting => initiator,
            Stage::Bound => true,
        }
    }
}

// The lowest place that no endpoint has.
pub fn find_unused(endpoints: &[Endpoint; PLACES]) -> Option<usize>
    ensures { (search_of result ≡ endpoint_at (at is_unused) endpoints.now) × FoundBelow result 1 8 }
{
    endpoints.iter().position(|p| p.stage == Stage::Unused)
}

// The lowest endpoint of this name that waits.
pub fn find_waiting(endpoints: &[Endpoint; PLACES], name: &[u8]) -> Option<usize>
    ensures { (search_of result ≡ endpoint_at (waiting_as name.now) endpoints.now) × FoundBelow result 1 8 }
{
    endpoints
        .iter()
        .position(|p| p.stage == Stage::Waiting && wire::same(&p.name, name))
}

// The endpoint that an arriving data message of this address reaches.
pub fn find_receiver(endpoints: &[Endpoint; PLACES], initiator: bool, address: u8) -> Option<usize>
    ensures { (search_of result ≡ endpoint_at (receives_at initiator address) endpoints.now) × FoundBelow result 1 8 }
{
    endpoints
        .iter()
        .position(|p| p.has_address(initiator) && p.address == address)
}

// Whom a send's address reaches: its byte, where a bound endpoint has it.
pub fn find_addressee(endpoints: &[Endpoint; PLACES], address: u32) -> Option<u8>
    ensures { IsAddressee result address endpoints.now }
{
    endpoints
        .iter()
        .find(|p| p.stage == Stage::Bound && u32::from(p.address) == address)
        .map(|p| p.address)
}

// Whether an endpoint has this name.
pub fn is_registered(endpoints: &[Endpoint; PLACES], name: &[u8]) -> bool
    ensures { result ≡ some_endpoint (registered_as name.now) endpoints.now }
{
    endpoints
        .iter()
        .any(|p| p.stage != Stage::Unused && wire::same(&p.name, name))
}

// Whether this address or this name is a bound endpoint's.
pub fn clashes(endpoints: &[Endpoint; PLACES], address: u32, name: &[u8]) -> bool
    ensures { result ≡ some_endpoint (clashes_as address name.now) endpoints.now }
{
    endpoints.iter().any(|p| p.stage == Stage::Bound
        && (u32::from(p.address) == address || wire::same(&p.name, name)))
}

// The lowest address that no endpoint uses.
pub fn unused_address(endpoints: &[Endpoint; PLACES]) -> u8
    ensures { result ≡ unused_from 8 0 endpoints.now }
{
    for a in 0..ADDRESSES {
        if !endpoints
            .iter()
            .any(|p| p.stage != Stage::Unused && p.address == a)
        {
            return a;
        }
    }
    ADDRESSES
}

// Binds the endpoint at this place to this address.
pub fn bind(endpoints: &mut [Endpoint; PLACES], place: usize, address: u8)
    requires { place < 8 }
    ensures { endpoints.new ≡ bound_now endpoints.old address (found_at place) }
{
    let p = &mut endpoints[place];
    p.stage = Stage::Bound;
    p.address = address;
}

// Binds the endpoint that waits at this address, if one does.
pub fn bind_waiting(endpoints: &mut [Endpoint; PLACES], address: u8)
    ensures { endpoints.new ≡ bound_now endpoints.old address (endpoint_at (waiting_at address) endpoints.old) }
{
    let waiting = endpoints
        .iter()
        .position(|p| p.stage == Stage::Waiting && p.address == address);
    if let Some(place) = waiting {
        bind(endpoints, place, address);
    }
}

// ---- bindings

// The lowest place that no binding has.
pub fn find_free(bindings: &[Binding; PLACES]) -> Option<usize>
    ensures { (search_of result ≡ binding_at (λ b. not b.stored) bindings.now) × FoundBelow result 1 8 }
{
    bindings.iter().position(|b| !b.stored)
}

// The lowest binding of this name whose blocks are among the first `block_count`.
pub fn find_stored(bindings: &[Binding; PLACES], block_count: u16, name: &[u8]) -> Option<usize>
    ensures { (search_of result ≡ binding_at (holds_as block_count name.now) bindings.now) × FoundBelow result 1 8 }
{
    bindings.iter().position(|b| b.stored
        && wire::same(&b.name, name)
        && blocks::lies(block_count, u32::from(b.start), b.count))
}

// Whether this address or this name is a stored binding's.
pub fn stored_clashes(bindings: &[Binding; PLACES], address: u8, name: &[u8]) -> bool
    ensures { result ≡ some_binding (clashes_stored_as address name.now) bindings.now }
{
    bindings.iter().any(|b| b.stored && (b.address == address || wire::same(&b.name, name)))
}
