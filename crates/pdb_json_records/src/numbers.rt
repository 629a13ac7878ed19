//! Reads booleans and numbers by their widths.

ghost use Rattle.pdb_json_values.specs.Values.{boolean_of};
ghost use Rattle.pdb_json_values.specs.JsonNumbers.{u8_of, u16_of, u32_of, u64_of, i8_of, i16_of, i32_of, i64_of};

use crate::members::FromJson;
use pdb_json_values::{Reader, RecordFault, boolean, out_of_range, signed, unsigned};
use serde_json::Value;

impl FromJson for bool {
    ghost read = { λ _. boolean_of };

    fn from_json(reader: Reader, value: Option<&Value>) -> Result<bool, RecordFault> {
        boolean(reader, value)
    }
}

impl FromJson for u8 {
    ghost read = { λ _. u8_of };

    #[tactic(auto, unfolding(pdb_json_values::specs::JsonNumbers::u8_of))]
    fn from_json(reader: Reader, value: Option<&Value>) -> Result<u8, RecordFault> {
        match u8::try_from(unsigned(reader, value)?) {
            Ok(number) => Ok(number),
            Err(_) => out_of_range(reader.alloc),
        }
    }
}

impl FromJson for u16 {
    ghost read = { λ _. u16_of };

    #[tactic(auto, unfolding(pdb_json_values::specs::JsonNumbers::u16_of))]
    fn from_json(reader: Reader, value: Option<&Value>) -> Result<u16, RecordFault> {
        match u16::try_from(unsigned(reader, value)?) {
            Ok(number) => Ok(number),
            Err(_) => out_of_range(reader.alloc),
        }
    }
}

impl FromJson for u32 {
    ghost read = { λ _. u32_of };

    #[tactic(auto, unfolding(pdb_json_values::specs::JsonNumbers::u32_of))]
    fn from_json(reader: Reader, value: Option<&Value>) -> Result<u32, RecordFault> {
        match u32::try_from(unsigned(reader, value)?) {
            Ok(number) => Ok(number),
            Err(_) => out_of_range(reader.alloc),
        }
    }
}

impl FromJson for i8 {
    ghost read = { λ _. i8_of };

    #[tactic(auto, unfolding(pdb_json_values::specs::JsonNumbers::i8_of))]
    fn from_json(reader: Reader, value: Option<&Value>) -> Result<i8, RecordFault> {
        match i8::try_from(signed(reader, value)?) {
            Ok(number) => Ok(number),
            Err(_) => out_of_range(reader.alloc),
        }
    }
}

impl FromJson for i16 {
    ghost read = { λ _. i16_of };

    #[tactic(auto, unfolding(pdb_json_values::specs::JsonNumbers::i16_of))]
    fn from_json(reader: Reader, value: Option<&Value>) -> Result<i16, RecordFault> {
        match i16::try_from(signed(reader, value)?) {
            Ok(number) => Ok(number),
            Err(_) => out_of_range(reader.alloc),
        }
    }
}

impl FromJson for i32 {
    ghost read = { λ _. i32_of };

    #[tactic(auto, unfolding(pdb_json_values::specs::JsonNumbers::i32_of))]
    fn from_json(reader: Reader, value: Option<&Value>) -> Result<i32, RecordFault> {
        match i32::try_from(signed(reader, value)?) {
            Ok(number) => Ok(number),
            Err(_) => out_of_range(reader.alloc),
        }
    }
}

impl FromJson for u64 {
    ghost read = { λ _. u64_of };

    fn from_json(reader: Reader, value: Option<&Value>) -> Result<u64, RecordFault> {
        unsigned(reader, value)
    }
}

impl FromJson for i64 {
    ghost read = { λ _. i64_of };

    fn from_json(reader: Reader, value: Option<&Value>) -> Result<i64, RecordFault> {
        signed(reader, value)
    }
}

// A position in a list. It must fit 32 bits.
impl FromJson for usize {
    ghost read = { λ _. u32_of };

    #[tactic(auto, unfolding(pdb_json_values::specs::JsonNumbers::u32_of))]
    fn from_json(reader: Reader, value: Option<&Value>) -> Result<usize, RecordFault> {
        let position = unsigned(reader, value)?;
        if position <= u64::from(u32::MAX) {
            Ok(position as usize)
        } else {
            out_of_range(reader.alloc)
        }
    }
}
