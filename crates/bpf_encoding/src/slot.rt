//! A slot of eight bytes as its fields (RFC 9669, section 3).

ghost use Rattle.std.specs.Prelude.{◌≡◌, ◌<◌, length};
ghost use Rattle.bpf_encoding.specs.Fields.{fields_of_bytes};
ghost use Rattle.bpf_encoding.specs.Joining.Viewed.{viewed};

use byteorder::{ByteOrder, LittleEndian};
use thiserror::Error;

/// What of the standard this profile leaves out.
#[derive(Clone, Copy, Debug, PartialEq, Eq, Error)]
pub enum Outside {
    /// Packet access, modes ABS and IND.
    #[error("packet access")]
    Packet,
    /// A 64-bit immediate of subtype 1 to 6.
    #[error("a 64-bit immediate of a subtype")]
    WideSubtype,
    /// A call of a function in the program.
    #[error("a call of a function in the program")]
    LocalCall,
    /// A call of a function by its BTF id.
    #[error("a call by BTF id")]
    BtfCall,
}

/// What is wrong with a slot.
#[derive(Clone, Copy, Debug, PartialEq, Eq)]
pub enum SlotFault {
    /// A field that isn't used isn't 0.
    UnusedField,
    /// The opcode, a selecting field or a used register is outside the tables.
    Undefined,
    /// Standard, but not of this profile.
    OutsideProfile(Outside),
}

/// The fields of a slot: dst and src in four bits each.
#[derive(Clone, Copy, Debug, PartialEq, Eq)]
pub(crate) struct Fields {
    pub(crate) opcode: u8,
    pub(crate) dst: u8,
    pub(crate) src: u8,
    pub(crate) offset: i16,
    pub(crate) imm: i32,
}

impl Fields {
    #[tactic(auto, using(crate::proofs::Numbers::offset_is, crate::proofs::Numbers::imm_is))]
    pub(crate) fn from_bytes(bytes: &[u8]) -> Fields
        requires { length bytes.now ≡ 8 }
        ensures { viewed result ≡ fields_of_bytes bytes.now }
    {
        Fields {
            opcode: bytes[0],
            dst: bytes[1] % 16,
            src: bytes[1] / 16,
            offset: LittleEndian::read_i16(&bytes[2..4]),
            imm: LittleEndian::read_i32(&bytes[4..]),
        }
    }

    #[tactic(auto, using(crate::proofs::Numbers::offset_is, crate::proofs::Numbers::imm_is))]
    pub(crate) fn to_bytes(self) -> [u8; 8]
        requires dst { self.dst < 16 }
        requires src { self.src < 16 }
        ensures { fields_of_bytes result ≡ viewed self }
    {
        let mut bytes = [self.opcode, self.dst + 16 * self.src, 0, 0, 0, 0, 0, 0];
        LittleEndian::write_i16(&mut bytes[2..4], self.offset);
        LittleEndian::write_i32(&mut bytes[4..], self.imm);
        bytes
    }
}
