ghost use Rattle.std.specs.Prelude.{◌≡◌};
ghost use Rattle.cb_base.specs.Fault.{fault_text};
ghost use Rattle.cb_base.specs.declared.fault.Fault.TheVariants.{BadTx};
ghost use Rattle.cb_c.specs.Giving.{IsGiven};
ghost use Rattle.cb_c.specs.Naming.{fault_in, other_name, status_name};

use crate::giving::give;
use cb_base::{Fault, TxRule};

/// The number of the interface: the major number times 65536, and the minor number.
const VERSION: u32 = 1;

/// The number of the interface that the library was built with.
#[unsafe(no_mangle)]
pub extern "C" fn cbrelay_version() -> u32
    ensures { result ≡ 1 }
{
    VERSION
}

/// The fault of a status, if it is one's.
fn fault_under(status: u32) -> Option<Fault>
    ensures { result ≡ fault_in status }
{
    match status {
        1 => Some(Fault::Memory),
        2 => Some(Fault::Truncated),
        3 => Some(Fault::NotShortest),
        4 => Some(Fault::TooMany),
        6 => Some(Fault::BadRoot),
        7 => Some(Fault::Mutated),
        8 => Some(Fault::Size64),
        9 => Some(Fault::Empty),
        10 => Some(Fault::BadCoinbase),
        11 => Some(Fault::BadWork),
        12 => Some(Fault::BadMagic),
        13 => Some(Fault::Oversize),
        14 => Some(Fault::Trailing),
        15 => Some(Fault::BadBool),
        16 => Some(Fault::BadIndex),
        17 => Some(Fault::WrongCount),
        18 => Some(Fault::Known),
        19 => Some(Fault::NoInput),
        20 => Some(Fault::PoolFull),
        21 => Some(Fault::Overspent),
        22 => Some(Fault::Remade),
        23 => Some(Fault::NoParent),
        24 => Some(Fault::BadParent),
        25 => Some(Fault::JournalFull),
        26 => Some(Fault::NotEnabled),
        27 => Some(Fault::Full),
        28 => Some(Fault::NoMore),
        261 => Some(Fault::BadTx(TxRule::NoInputs)),
        517 => Some(Fault::BadTx(TxRule::NoOutputs)),
        773 => Some(Fault::BadTx(TxRule::TooLong)),
        1029 => Some(Fault::BadTx(TxRule::BadValue)),
        1285 => Some(Fault::BadTx(TxRule::BadSum)),
        1541 => Some(Fault::BadTx(TxRule::RepeatedInput)),
        1797 => Some(Fault::BadTx(TxRule::BadCoinbaseScript)),
        2053 => Some(Fault::BadTx(TxRule::NullInput)),
        _ => None,
    }
}

/// The printed form of a rule's fault.
fn rule_text(rule: TxRule) -> &'static str
    ensures { result.now ≡ fault_text (BadTx rule) }
{
    match rule {
        TxRule::NoInputs => "F5 BadTx 1",
        TxRule::NoOutputs => "F5 BadTx 2",
        TxRule::TooLong => "F5 BadTx 3",
        TxRule::BadValue => "F5 BadTx 4",
        TxRule::BadSum => "F5 BadTx 5",
        TxRule::RepeatedInput => "F5 BadTx 6",
        TxRule::BadCoinbaseScript => "F5 BadTx 7",
        TxRule::NullInput => "F5 BadTx 8",
    }
}

/// The printed form of a fault.
fn text_of(fault: Fault) -> &'static str
    ensures { result.now ≡ fault_text fault }
{
    match fault {
        Fault::Memory => "F1 Memory",
        Fault::Truncated => "F2 Truncated",
        Fault::NotShortest => "F3 NotShortest",
        Fault::TooMany => "F4 TooMany",
        Fault::BadTx(rule) => rule_text(rule),
        Fault::BadRoot => "F6 BadRoot",
        Fault::Mutated => "F7 Mutated",
        Fault::Size64 => "F8 Size64",
        Fault::Empty => "F9 Empty",
        Fault::BadCoinbase => "F10 BadCoinbase",
        Fault::BadWork => "F11 BadWork",
        Fault::BadMagic => "F12 BadMagic",
        Fault::Oversize => "F13 Oversize",
        Fault::Trailing => "F14 Trailing",
        Fault::BadBool => "F15 BadBool",
        Fault::BadIndex => "F16 BadIndex",
        Fault::WrongCount => "F17 WrongCount",
        Fault::Known => "F18 Known",
        Fault::NoInput => "F19 NoInput",
        Fault::PoolFull => "F20 PoolFull",
        Fault::Overspent => "F21 Overspent",
        Fault::Remade => "F22 Remade",
        Fault::NoParent => "F23 NoParent",
        Fault::BadParent => "F24 BadParent",
        Fault::JournalFull => "F25 JournalFull",
        Fault::NotEnabled => "F26 NotEnabled",
        Fault::Full => "F27 Full",
        Fault::NoMore => "F28 NoMore",
    }
}

/// The name of a status that isn't a fault's.
fn other_text(status: u32) -> &'static str
    ensures { result.now ≡ other_name status }
{
    match status {
        0 => "OK",
        65_536 => "TooSmall",
        65_537 => "Partial",
        65_538 => "Damaged",
        _ => "Unknown",
    }
}

/// The name of a status.
fn name_of(status: u32) -> &'static str
    ensures { result.now ≡ status_name status }
{
    match fault_under(status) {
        Some(fault) => text_of(fault),
        None => other_text(status),
    }
}

/// Writes the name of a status.
#[unsafe(no_mangle)]
pub extern "C" fn cbrelay_fault_text(status: u32, out: &mut [u8], len: &mut usize) -> u32
    ensures { IsGiven (status_name status) out.old out.new len.new result }
{
    give(name_of(status).as_bytes(), out, len)
}
