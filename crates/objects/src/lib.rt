//! The objects and their methods: which there are, what arguments they take, and what a reply carries.
#![tactic(auto)]

ghost use Rattle.std.specs.Prelude.{◌≡◌, true, ◌||◌, ◌+◌, ◌^◌, ◌<◌, ◌≤◌, length};
ghost use Rattle.laws.specs.Lists.{all};
ghost use Rattle.objects.specs.Methods.{add_method, is_mute, method_number, method_of, Names, place_of};
ghost use Rattle.objects.specs.Methods.{is_manager, is_object, is_locking, has_method};
ghost use Rattle.objects.specs.Tests.{is_forbidden, count_of, context_given, is_length_bad, is_pair_bad};
ghost use Rattle.objects.specs.Tests.{is_add_bad, is_malformed, FirstStatus, is_mute_value};
ghost use Rattle.objects.specs.Answers.{class_of, class_fields, identification_of, carried_count, carried_bytes};
ghost use Rattle.objects.specs.Scaffold.{MethodsApart};

use numbers::Status;

/// The mutes of a device.
pub const MUTES: usize = 8;

pub const DEVICE_MANAGER: u32 = 1;

pub const SUBSCRIPTION_MANAGER: u32 = 4;

pub const FIRST_MUTE: u32 = 4097;

pub const LAST_MUTE: u32 = 4104;

// A method, an event or a property is level x 65,536 + index.
const LEVEL: u32 = 65536;

/// Event 1.1, the only one that can be subscribed to, as one number.
pub const CHANGE_EVENT: u32 = LEVEL + 1;

/// Property 4.1, as one number.
pub const MUTE_PROPERTY: u32 = 4 * LEVEL + 1;

// Of 3.1: its bytes without a context's, where the context's count stands, and behind an empty context the mode and the last pair.
const LEAST_ADD: usize = 21;

const CONTEXT_COUNT: usize = 16;

/// Where the context of 3.1 starts.
pub const CONTEXT: usize = 18;

const MODE: usize = 18;

const PAIR: usize = 19;

// The bytes of 3.2.
const REMOVE_BYTES: usize = 16;

/// The value of a mute that is muted.
pub const MUTED: u8 = 1;

/// The value of a mute that is not.
pub const UNMUTED: u8 = 2;

/// The methods that objects have.
#[derive(Clone, Copy, Debug, PartialEq, Eq)]
pub enum Method {
    /// 1.1, of every object: its class.
    Class,
    /// 1.2, of every object: whether it can be locked.
    Lockable,
    /// 1.3.
    Lock,
    /// 1.4.
    Unlock,
    /// 3.1 of the subscription manager: a subscription is added.
    Add,
    /// 3.2 of the subscription manager: a subscription is removed.
    Remove,
    /// 3.14 of the device manager: the reset mechanism is armed.
    ResetKey,
    /// 4.1 of a mute: its value.
    Get,
    /// 4.2 of a mute.
    Set,
}

/// The class of an object.
#[derive(Clone, Copy, Debug, PartialEq, Eq)]
pub enum Class {
    /// 1.1.1.2.
    Mute,
    /// 1.3.1.
    DeviceManager,
    /// 1.3.4.
    SubscriptionManager,
}

/// What the response to a command that was carried out carries.
#[derive(Clone, Copy, Debug, PartialEq, Eq)]
pub enum Reply {
    /// No parameter.
    Done,
    /// One parameter of one byte.
    Byte(u8),
    /// One parameter: the identification of a class.
    Class(Class),
}

impl TryFrom<(u16, u16)> for Method {
    type Error = Status;

    ghost try_from_gives = { λ given r. Names (method_number given.0 given.1) r };

    /// The method of a level and an index, or status 11.
    fn try_from(given: (u16, u16)) -> Result<Method, Status> {
        match given {
            (1, 1) => Ok(Method::Class),
            (1, 2) => Ok(Method::Lockable),
            (1, 3) => Ok(Method::Lock),
            (1, 4) => Ok(Method::Unlock),
            (3, 1) => Ok(Method::Add),
            (3, 2) => Ok(Method::Remove),
            (3, 14) => Ok(Method::ResetKey),
            (4, 1) => Ok(Method::Get),
            (4, 2) => Ok(Method::Set),
            _ => Err(Status::NoMethod),
        }
    }
}

/// A method as one number.
pub fn method_number(level: u16, index: u16) -> u32
    ensures { result ≡ method_number level index }
{
    u32::from(level) * LEVEL + u32::from(index)
}

impl Method {
    // The method of a number, or status 11.
    fn of(m: u32) -> Result<Method, Status>
        ensures { Names m result }
    {
        Method::try_from(((m / LEVEL) as u16, (m % LEVEL) as u16))
    }

    // How many parameters it takes.
    #[tactic(auto, unfolding(crate::specs::Tests::count_of))]
    fn count(self) -> u8
        ensures { result ≡ count_of (method_of self) }
    {
        match self {
            Method::Add => 5,
            Method::Remove | Method::ResetKey => 2,
            Method::Set => 1,
            Method::Class | Method::Lockable | Method::Lock | Method::Unlock | Method::Get => 0,
        }
    }

    // Whether an object that there is has it.
    #[tactic(auto, unfolding(crate::specs::Methods::has_method, crate::specs::Methods::is_telling, crate::specs::Methods::is_locking, crate::specs::Methods::is_muting, crate::specs::Methods::is_subscribing))]
    fn belongs_to(self, target: u32) -> bool
        ensures { result ≡ has_method target (method_of self) }
    {
        match self {
            Method::Class | Method::Lockable | Method::Lock | Method::Unlock => true,
            Method::Get | Method::Set => is_mute(target),
            Method::Add | Method::Remove => target == SUBSCRIPTION_MANAGER,
            Method::ResetKey => target == DEVICE_MANAGER,
        }
    }

    // Status 4: wrong parameter count, length or last pair.
    #[tactic(auto, using(crate::proofs::Shapes::count_bad, crate::proofs::Shapes::misfit_is, crate::proofs::Shapes::add_is, crate::proofs::Shapes::length_is), unfolding(crate::specs::Tests::length_of))]
    fn is_malformed(self, count: u8, part: &[u8]) -> bool
        ensures { result ≡ is_malformed (method_of self) count part.now }
    {
        if count != self.count() {
            return true;
        }
        match self {
            Method::Add => is_add_misfit(part),
            Method::Remove => part.len() != REMOVE_BYTES,
            Method::ResetKey => mechanism::is_misfit(part),
            Method::Set => part.len() != 1,
            Method::Class | Method::Lockable | Method::Lock | Method::Unlock | Method::Get => {
                !part.is_empty()
            }
        }
    }
}

/// Whether the object is a mute.
#[tactic(auto, unfolding(crate::specs::Methods::is_mute))]
pub fn is_mute(object: u32) -> bool
    ensures { result ≡ is_mute object }
{
    (FIRST_MUTE..=LAST_MUTE).contains(&object)
}

/// A mute's place among the eight.
#[tactic(auto, using(crate::proofs::Shapes::mute_at_lem, crate::proofs::Shapes::place_is))]
pub fn place(target: u32) -> usize
    requires { is_mute target ≡ true }
    ensures { (result ≡ place_of target) × (result < 8) }
{
    (target - FIRST_MUTE) as usize
}

#[tactic(auto, unfolding(crate::specs::Methods::is_manager))]
fn is_manager(target: u32) -> bool
    ensures { result ≡ is_manager target }
{
    (target == DEVICE_MANAGER) | (target == SUBSCRIPTION_MANAGER)
}

/// Whether there is such an object: a manager or a mute.
#[tactic(auto, unfolding(crate::specs::Methods::is_object))]
pub fn is_object(target: u32) -> bool
    ensures { result ≡ is_object target }
{
    is_manager(target) | is_mute(target)
}

/// Whether an object that there is has the method of a number.
pub fn has_method(target: u32, m: u32) -> bool
    ensures { result ≡ has_method target m }
{
    match Method::of(m) {
        Ok(method) => method.belongs_to(target),
        Err(_) => false,
    }
}

// Status 8: lock or unlock of a manager.
#[tactic(auto, unfolding(crate::specs::Tests::is_forbidden, crate::specs::Methods::is_locking))]
fn is_forbidden(target: u32, method: Method) -> bool
    ensures { result ≡ is_forbidden target (method_of method) }
{
    match method {
        Method::Lock | Method::Unlock => is_manager(target),
        _ => false,
    }
}

/// How many bytes the context has that 3.1 gives.
#[tactic(auto, unfolding(crate::specs::Tests::context_given))]
pub fn context_given(part: &[u8]) -> usize
    requires { 18 ≤ length part.now }
    ensures { (result ≡ context_given part.now) × (result < 2 ^ 16) }
{
    octets::be16(part, CONTEXT_COUNT) as usize
}

// Status 4 for the arguments of 3.1, but for their number.
#[tactic(auto, using(crate::proofs::Shapes::add_short, crate::proofs::Shapes::add_misfit, crate::proofs::Shapes::add_pair))]
fn is_add_misfit(part: &[u8]) -> bool
    ensures { result ≡ (is_length_bad add_method part.now || is_pair_bad add_method part.now) }
{
    if part.len() < LEAST_ADD {
        return true;
    }
    let n = context_given(part);
    if part.len() != LEAST_ADD + n {
        return true;
    }
    !((part[PAIR + n] == 0) & (part[PAIR + 1 + n] == 0))
}

/// Status 7 for the arguments of 3.1: a mode that is not 1, or a context of more than 64 bytes.
#[tactic(auto, unfolding(crate::specs::Tests::is_add_bad))]
pub fn is_add_bad(part: &[u8]) -> bool
    requires { 21 + context_given part.now ≤ length part.now }
    ensures { result ≡ is_add_bad part.now }
{
    let n = context_given(part);
    (part[MODE + n] != 1) | (frame::GREATEST_CONTEXT < n)
}

/// Status 4 for the arguments of the method of a number: wrong parameter count, length or last pair. A number that no method has
/// takes none.
pub fn is_malformed(m: u32, count: u8, part: &[u8]) -> bool
    ensures { result ≡ is_malformed m count part.now }
{
    match Method::of(m) {
        Ok(method) => method.is_malformed(count, part),
        Err(_) => (count != 0) | !part.is_empty(),
    }
}

/// The method that an object is asked for, or the first status that applies of those that are known before the device is
/// looked at: 5, 11, 8 and 4, in this order.
#[tactic(auto, using(crate::proofs::Shapes::first_object, crate::proofs::Shapes::first_method, crate::proofs::Shapes::first_forbidden, crate::proofs::Shapes::first_malformed, crate::proofs::Shapes::first_none))]
pub fn first_status(
    target: u32,
    level: u16,
    index: u16,
    count: u8,
    part: &[u8],
) -> Result<Method, Status>
    ensures { FirstStatus target (method_number level index) count part.now result }
{
    if !is_object(target) {
        return Err(Status::NoObject);
    }
    let method = Method::try_from((level, index))?;
    if !method.belongs_to(target) {
        return Err(Status::NoMethod);
    }
    if is_forbidden(target, method) {
        return Err(Status::Forbidden);
    }
    if method.is_malformed(count, part) {
        return Err(Status::Malformed);
    }
    Ok(method)
}

/// Whether a mute can have the value: muted or not.
#[tactic(auto, unfolding(crate::specs::Tests::is_mute_value))]
pub fn is_mute_value(v: u8) -> bool
    ensures { result ≡ is_mute_value v }
{
    matches!(v, MUTED | UNMUTED)
}

/// Whether every mute has a value that it can have.
pub fn all_mute_values(mutes: &[u8; 8]) -> bool
    ensures { result ≡ all is_mute_value mutes.now }
{
    mutes.iter().all(|&v| is_mute_value(v))
}

impl Class {
    /// The class of an object that there is.
    #[tactic(auto, using(laws::proofs::Conds::tests), unfolding(crate::specs::Answers::class_of))]
    pub fn of(target: u32) -> Class
        ensures { class_fields result ≡ class_of target }
    {
        if is_mute(target) {
            Class::Mute
        } else if target == DEVICE_MANAGER {
            Class::DeviceManager
        } else {
            Class::SubscriptionManager
        }
    }

    // How many fields it has, the fields, and its version 1, in 2 bytes each.
    #[tactic(auto, unfolding(crate::specs::Answers::identification_of, octets::specs::Numbers::bytes16))]
    fn identification(self) -> &'static [u8]
        ensures { result.now ≡ identification_of (class_fields self) }
    {
        match self {
            Class::Mute => &[0, 4, 0, 1, 0, 1, 0, 1, 0, 2, 0, 1],
            Class::DeviceManager => &[0, 3, 0, 1, 0, 3, 0, 1, 0, 1],
            Class::SubscriptionManager => &[0, 3, 0, 1, 0, 3, 0, 4, 0, 1],
        }
    }
}

impl Reply {
    /// How many parameters there are.
    pub fn count(self) -> u8
        ensures { result ≡ carried_count self }
    {
        match self {
            Reply::Done => 0,
            Reply::Byte(_) | Reply::Class(_) => 1,
        }
    }

    /// The bytes of the parameters, at most 12.
    pub fn parameters(&self) -> &[u8]
        ensures { (result.now ≡ carried_bytes self.now) × (length result.now ≤ 12) }
    {
        match self {
            Reply::Done => &[],
            Reply::Byte(v) => std::slice::from_ref(v),
            Reply::Class(class) => class.identification(),
        }
    }
}

pub fn methods_apart()
    ensures { MethodsApart }
{}
