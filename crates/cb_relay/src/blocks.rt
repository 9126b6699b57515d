ghost use Rattle.std.specs.Prelude.{◌≡◌, ◌⊎◌, ◌<◌, length, IfErr, IfOk};
ghost use Rattle.cb_base.specs.declared.fault.Fault.TheVariants.{Memory};
ghost use Rattle.cb_block.specs.Blocks.{IsSoundBlock, IsUnsound, MeetsBlockRules};
ghost use Rattle.cb_relay.specs.Whole.{IsBlockOf, IsNoBlock, IsNoSound, IsNoSoundBlock, IsNoValid, IsNoValidBlock, IsSoundOf, IsValidOf};

use cb_base::{Cursor, Fault, Shared};
use cb_block::{Block, SoundBlock, check_block, read_block, sound};
use std::alloc::Global;

/// Reads the block that is all of these bytes. Whether its transactions are those of its header
/// isn't checked. Fails as `read_block` does, and last with `Fault::Trailing`. `Fault::Memory` is
/// possible only behind a count above 0.
pub fn whole_block(alloc: Global, bytes: &[u8]) -> Result<Block, Fault>
    ensures found { IfOk result (IsBlockOf bytes.now) }
    ensures refused { IfErr result (IsNoBlock bytes.now) }
{
    let mut cursor = Cursor::new(bytes);
    let block = read_block(alloc, &mut cursor)?;
    if cursor.left() > 0 {
        return Err(Fault::Trailing);
    }
    Ok(block)
}

/// The block as a sound one. It is dropped if it isn't.
fn sound_shared(alloc: Global, block: Block) -> Result<SoundBlock, Fault>
    ensures same { IfOk result (λ sound. (sound ≡ block) × IsSoundBlock block) }
    ensures refused { IfErr result (λ fault. (fault ≡ Memory) ⊎ IsUnsound block fault) }
{
    match sound(alloc, Shared::new(alloc, block)?) {
        Ok(block) => Ok(block),
        Err((_block, fault)) => Err(fault),
    }
}

/// The same. A block without transactions needs no memory.
fn sound_alone(alloc: Global, block: Block) -> Result<SoundBlock, Fault>
    ensures same { IfOk result (λ sound. (sound ≡ block) × IsSoundBlock block) }
    ensures refused { IfErr result (IsNoSound block) }
{
    if block.txs.as_slice().is_empty() {
        return Err(Fault::Empty);
    }
    match sound_shared(alloc, block) {
        Ok(block) => Ok(block),
        Err(fault) => Err(fault),
    }
}

/// Reads the sound block that is all of these bytes: its transactions are the only ones that fit
/// its header. Fails as `whole_block` does, then as `sound`.
pub fn sound_block(alloc: Global, bytes: &[u8]) -> Result<SoundBlock, Fault>
    ensures found { IfOk result (IsSoundOf bytes.now) }
    ensures refused { IfErr result (IsNoSoundBlock bytes.now) }
{
    let block = whole_block(alloc, bytes)?;
    match sound_alone(alloc, block) {
        Ok(block) => Ok(block),
        Err(fault) => Err(fault),
    }
}

/// Checks the rules that a block meets by itself (`check_block`).
fn valid_alone(alloc: Global, block: &SoundBlock) -> Result<(), Fault>
    ensures fine { IfOk result (λ _. MeetsBlockRules block.now) }
    ensures refused { IfErr result (IsNoValid block.now) }
{
    check_block(alloc, block)
}

/// Reads the sound block that is all of these bytes and meets the rules which a block meets by
/// itself. Fails as `sound_block` does, then as `check_block`.
pub fn valid_block(alloc: Global, bytes: &[u8]) -> Result<SoundBlock, Fault>
    ensures found { IfOk result (IsValidOf bytes.now) }
    ensures refused { IfErr result (IsNoValidBlock bytes.now) }
{
    let read = sound_block(alloc, bytes)?;
    match valid_alone(alloc, &read) {
        Ok(()) => Ok(read),
        Err(fault) => Err(fault),
    }
}
