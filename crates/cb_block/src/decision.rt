ghost use Rattle.std.specs.Prelude.{◌≡◌, true, false, IfOk, IsOk, IsOkUnless, MatchOption};
ghost use Rattle.cb_base.specs.declared.fault.Fault.{Fault};
ghost use Rattle.cb_base.specs.declared.fault.Fault.TheVariants.{Memory};
ghost use Rattle.cb_block.specs.Blocks.{IsSoundBlock, IsUnsound};
ghost use Rattle.cb_block.specs.declared.block.Block.{Block};
ghost use Rattle.cb_block.specs.Decision.{is_hashed, is_sound_block};

use crate::block::Block;
use crate::soundness::{SoundBlock, check_sizes, sound};
use cb_base::{Fault, Shared};
use std::alloc::Global;

/// The block as a sound one, or `None` if it isn't sound; `is_sound_block` decides. The block has
/// one more owner while it is hashed, and keeps it if it is sound.
///
/// Fails only with `Fault::Memory`, and never for a block without transactions or with one of 64
/// bytes.
pub fn sound_of(alloc: Global, block: &Shared<Block>) -> Result<Option<SoundBlock>, Fault>
    ensures decided { IfOk result (λ told. MatchOption told (is_sound_block block.now ≡ false)
        (λ sound. (sound ≡ block.now) × (is_sound_block block.now ≡ true))) }
    ensures memory { IsOkUnless result Memory }
    // The sizes are looked at before the block has an owner more.
    ensures unpaid { is_hashed block.now ≡ false → IsOk result }
{
    if check_sizes(&**block).is_err() {
        return Ok(None);
    }
    match sound(alloc, block.clone()?) {
        Ok(sound) => Ok(Some(sound)),
        Err((_refused, fault)) => {
            if fault == Fault::Memory {
                return Err(fault);
            }
            Ok(None)
        }
    }
}

/// The computed decision agrees with the definition: `is_sound_block` holds exactly for sound
/// blocks, and fails for a block with a reason why it is unsound.
pub fn sound_is_decided()
    ensures from { (b : Block) → is_sound_block b ≡ true → IsSoundBlock b }
    ensures to { (b : Block) → IsSoundBlock b → is_sound_block b ≡ true }
    ensures unsound { (b : Block) (fault : Fault) → IsUnsound b fault → is_sound_block b ≡ false }
{}
