//! The operations of the canonical prologue that packed unwind data describes, and of its epilogue.

ghost use Rattle.std.specs.Prelude.{◌≡◌, ◌++◌, replicate, OnOk};
ghost use Rattle.pe_unwind_arm64.specs.Canonical.{allocated, chain_part, epilogue_part, first_float, first_home};
ghost use Rattle.pe_unwind_arm64.specs.Canonical.{float_part, frame_part, home_part, last_register, link_part, local_part};
ghost use Rattle.pe_unwind_arm64.specs.Canonical.{odd_part, pair_operation, pair_part, prologue_part, saved_part};
ghost use Rattle.pe_unwind_arm64.specs.Canonical.{sign_part, unhome_part};
ghost use Rattle.pe_unwind_arm64.specs.declared.unwind_codes.Operation.TheVariants.{SaveFloats};

use crate::packed_data::{
    Packed, is_chained, is_moved, is_saved, is_signed, local_size, saved_size,
};
use crate::registers::{Register, numbered};
use crate::unwind_codes::Operation;
use std::alloc::AllocError;

/// The maximum number of bytes that one instruction allocates.
const MOST_ALLOCATED: u32 = 4080;

/// The maximum number of bytes that the instruction allocates that stores x29 and x30.
const MOST_PUSHED: u32 = 512;

// Appends the operations that moved the stack pointer down.
fn push_allocated(operations: &mut Vec<Operation>, bytes: u32) -> Result<(), AllocError>
    ensures { OnOk result (operations.new.items ≡ operations.old.items ++ allocated bytes) }
{
    if bytes == 0 {
        return Ok(());
    }
    if bytes <= MOST_ALLOCATED {
        operations.push(Operation::Allocate(bytes))?;
        return Ok(());
    }
    operations.push(Operation::Allocate(bytes - MOST_ALLOCATED))?;
    operations.push(Operation::Allocate(MOST_ALLOCATED))?;
    Ok(())
}

// Appends the operations that stored x29 and x30 at the bottom of the frame.
fn push_chain(operations: &mut Vec<Operation>, bytes: u32) -> Result<(), AllocError>
    ensures { OnOk result (operations.new.items ≡ operations.old.items ++ chain_part bytes) }
{
    if bytes <= MOST_PUSHED {
        operations.push(Operation::PushPair(Register::X29, bytes))?;
        return Ok(());
    }
    operations.push(Operation::SavePair(Register::X29, 0))?;
    push_allocated(operations, bytes)
}

// Appends the operations that allocated the rest of the frame.
fn push_local(operations: &mut Vec<Operation>, packed: Packed) -> Result<(), AllocError>
    ensures { OnOk result (operations.new.items ≡ operations.old.items ++ local_part packed) }
{
    if is_chained(packed.link) {
        push_chain(operations, local_size(packed))
    } else {
        push_allocated(operations, local_size(packed))
    }
}

// The operation that stored d8 and d9.
fn first_float(packed: Packed) -> Operation
    ensures { result ≡ first_float packed }
{
    if is_moved(packed) {
        Operation::SaveFloats
    } else {
        Operation::PushFloats(saved_size(packed))
    }
}

// Appends the operations that stored `count` pairs of registers after d8 and d9.
fn push_floats(operations: &mut Vec<Operation>, count: u8) -> Result<(), AllocError>
    ensures { OnOk result (operations.new.items ≡ operations.old.items ++ replicate count SaveFloats) }
{
    for _ in 0..count {
        operations.push(Operation::SaveFloats)?;
    }
    Ok(())
}

// Appends the operations that stored the registers from d8 on.
fn push_float_part(operations: &mut Vec<Operation>, packed: Packed) -> Result<(), AllocError>
    ensures { OnOk result (operations.new.items ≡ operations.old.items ++ float_part packed) }
{
    if packed.floats == 0 {
        return Ok(());
    }
    push_floats(operations, packed.floats / 2)?;
    operations.push(first_float(packed))?;
    Ok(())
}

// Appends the operation that stored x30 after the other registers, if one did.
fn push_link(operations: &mut Vec<Operation>, packed: Packed) -> Result<(), AllocError>
    ensures { OnOk result (operations.new.items ≡ operations.old.items ++ link_part packed) }
{
    if !is_saved(packed.link) || packed.registers % 2 != 0 {
        return Ok(());
    }
    if packed.registers == 0 {
        operations.push(Operation::Push(Register::X30, saved_size(packed)))?;
        return Ok(());
    }
    operations.push(Operation::Save(Register::X30, 8 * u32::from(packed.registers)))?;
    Ok(())
}

// The operation that stored the last register, which has no pair. It is the `number`th after x19.
fn last_register(packed: Packed, number: u8) -> Operation
    ensures { result ≡ last_register packed number }
{
    let register = numbered(usize::from(number));
    let offset = 8 * u32::from(number);
    if is_saved(packed.link) {
        Operation::SaveWithLink(register, offset)
    } else {
        Operation::Save(register, offset)
    }
}

// Appends the operation that stored the last register, if their number is odd.
fn push_odd(operations: &mut Vec<Operation>, packed: Packed) -> Result<(), AllocError>
    ensures { OnOk result (operations.new.items ≡ operations.old.items ++ odd_part packed) }
{
    if packed.registers % 2 == 0 {
        return Ok(());
    }
    if packed.registers == 1 {
        operations.push(Operation::Push(Register::X19, saved_size(packed)))?;
        return Ok(());
    }
    operations.push(last_register(packed, packed.registers - 1))?;
    Ok(())
}

// The operation that stored a pair of registers. `number` is how many pairs come before it.
fn pair_operation(saved: u32, number: u8) -> Operation
    ensures { result ≡ pair_operation saved number }
{
    if number == 0 {
        return Operation::PushPair(Register::X19, saved);
    }
    let number = u32::from(number);
    Operation::SavePair(numbered(2 * number as usize), 16 * number)
}

// Appends the operations that stored `count` pairs, the last pair first.
fn push_pairs(operations: &mut Vec<Operation>, saved: u32, count: u8) -> Result<(), AllocError>
    ensures { OnOk result (operations.new.items ≡ operations.old.items ++ pair_part saved count) }
{
    for done in 0..count {
        operations.push(pair_operation(saved, count - done - 1))?;
    }
    Ok(())
}

// Appends the operation that signed x30, if one did.
fn push_sign(operations: &mut Vec<Operation>, packed: Packed) -> Result<(), AllocError>
    ensures { OnOk result (operations.new.items ≡ operations.old.items ++ sign_part packed) }
{
    if is_signed(packed.link) {
        operations.push(Operation::Unseen)?;
    }
    Ok(())
}

// Appends the operations that stored the caller's registers.
fn push_saved(operations: &mut Vec<Operation>, packed: Packed) -> Result<(), AllocError>
    ensures { OnOk result (operations.new.items ≡ operations.old.items ++ saved_part packed) }
{
    push_float_part(operations, packed)?;
    push_link(operations, packed)?;
    push_odd(operations, packed)?;
    push_pairs(operations, saved_size(packed), packed.registers / 2)?;
    push_sign(operations, packed)
}

// The operation that stored the first pair of parameters.
fn first_home(packed: Packed) -> Operation
    ensures { result ≡ first_home packed }
{
    if is_moved(packed) || packed.floats != 0 {
        Operation::Unseen
    } else {
        Operation::Allocate(saved_size(packed))
    }
}

// Appends the operations that stored the parameters, if they were stored.
fn push_homes(operations: &mut Vec<Operation>, packed: Packed) -> Result<(), AllocError>
    ensures { OnOk result (operations.new.items ≡ operations.old.items ++ home_part packed) }
{
    if packed.is_homed {
        operations.push(Operation::Unseen)?;
        operations.push(Operation::Unseen)?;
        operations.push(Operation::Unseen)?;
        operations.push(first_home(packed))?;
    }
    Ok(())
}

// Appends the operation that moves the stack pointer back over the parameters, if their store moved it.
fn push_unhomed(operations: &mut Vec<Operation>, packed: Packed) -> Result<(), AllocError>
    ensures { OnOk result (operations.new.items ≡ operations.old.items ++ unhome_part packed) }
{
    if packed.is_homed && !is_moved(packed) && packed.floats == 0 {
        operations.push(Operation::Allocate(saved_size(packed)))?;
    }
    Ok(())
}

// Appends the operation that set x29, if one did.
fn push_frame(operations: &mut Vec<Operation>, packed: Packed) -> Result<(), AllocError>
    ensures { OnOk result (operations.new.items ≡ operations.old.items ++ frame_part packed) }
{
    if is_chained(packed.link) {
        operations.push(Operation::SetFrame)?;
    }
    Ok(())
}

/// Appends the operations of the prologue, from the last to the first.
pub(crate) fn push_prologue(
    operations: &mut Vec<Operation>,
    packed: Packed,
) -> Result<(), AllocError>
    ensures { OnOk result (operations.new.items ≡ operations.old.items ++ prologue_part packed) }
{
    push_frame(operations, packed)?;
    push_local(operations, packed)?;
    push_homes(operations, packed)?;
    push_saved(operations, packed)
}

/// Appends the operations that the epilogue undoes, in its order.
pub(crate) fn push_epilogue(
    operations: &mut Vec<Operation>,
    packed: Packed,
) -> Result<(), AllocError>
    ensures { OnOk result (operations.new.items ≡ operations.old.items ++ epilogue_part packed) }
{
    push_local(operations, packed)?;
    push_unhomed(operations, packed)?;
    push_saved(operations, packed)
}
