ghost use Rattle.std.specs.Prelude.{◌≡◌, ◌↔◌, ◌+◌, ◌<◌, length, take, drop, IsErr, IfOk};
ghost use Rattle.std.specs.Int.{w8, w16, w32, w64};
ghost use Rattle.oc_base.specs.Fields.{number_at};

/// Too few bytes are left for a field.
#[derive(Clone, Copy, Debug, PartialEq, Eq)]
pub struct Short;

/// Reads the byte at a place; answers it with the next place.
pub fn take_u8(input: &[u8], at: usize) -> Result<(u8, usize), Short>
    ensures { result ≡ number_at w8 input.now at }
{
    let (field, next) = take_bytes(input, at, 1)?;
    Ok((field[0], next))
}

/// Reads the big-endian number of two bytes at a place; answers it with the next place.
pub fn take_u16(input: &[u8], at: usize) -> Result<(u16, usize), Short>
    ensures { result ≡ number_at w16 input.now at }
{
    let (field, next) = take_bytes(input, at, 2)?;
    Ok((u16::from_be_bytes([field[0], field[1]]), next))
}

/// Reads the big-endian number of four bytes at a place; answers it with the next place.
pub fn take_u32(input: &[u8], at: usize) -> Result<(u32, usize), Short>
    ensures { result ≡ number_at w32 input.now at }
{
    let (field, next) = take_bytes(input, at, 4)?;
    let number = u32::from_be_bytes([field[0], field[1], field[2], field[3]]);
    Ok((number, next))
}

/// Reads the big-endian number of eight bytes at a place; answers it with the next place.
pub fn take_u64(input: &[u8], at: usize) -> Result<(u64, usize), Short>
    ensures { result ≡ number_at w64 input.now at }
{
    let (field, next) = take_bytes(input, at, 8)?;
    let number = u64::from_be_bytes([
        field[0], field[1], field[2], field[3], field[4], field[5], field[6], field[7],
    ]);
    Ok((number, next))
}

/// Reads `count` bytes from a place on; answers them with the next place.
pub fn take_bytes(input: &[u8], at: usize, count: usize) -> Result<(&[u8], usize), Short>
    ensures bytes { IfOk result (λ field. field.0.now ≡ take count (drop at input.now)) }
    ensures next { IfOk result (λ field. field.1 ≡ at + count) }
    ensures short { IsErr result ↔ (length input.now < at + count) }
{
    if at > input.len() || count > input.len() - at {
        return Err(Short);
    }
    let next = at + count;
    Ok((&input[at..next], next))
}
