//! What values hold by their types.
ghost use Rattle.aes_core.specs.Schedule.{AreBytes};
ghost use Rattle.key_commands.specs.Types.{IsMasterKey};

use eli_base::MasterKey;

/// Each byte is a number below 256.
pub fn are_bytes(bytes: [u8; 384])
    ensures { AreBytes bytes }
{
    let _ = bytes;
}

/// A master key has 128 bytes.
pub fn is_master_key(master: MasterKey)
    ensures { IsMasterKey master.bytes }
{
    let _ = master;
}
