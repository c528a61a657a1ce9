// Conversions between replies, maps, directions, chains and time offsets and the plain numbers that pass
// across the C interface.
#![tactic(auto)]

ghost use Rattle.std.specs.Prelude.{◌≡◌};
ghost use Rattle.ffi_values.specs.Code.{value_code, validation_code, test_code, count_code, reply_code};
ghost use Rattle.ffi_values.specs.Map.{untimed_map, direction_of};
ghost use Rattle.ffi_values.specs.Time.{offset_numbers, offset_patterns};
ghost use Rattle.ffi_values.specs.MapCode.{map_from_numbers, map_value, map_code, map_time, with_time_offset_call, chain_value, chain_code};

use refusal::Refusal;

// A map's header with the identity time offset.
pub fn untimed_map(count: usize, mark: bool) -> map_function::MapFunction
    ensures { result ≡ untimed_map count mark }
{
    let time = layer_offset::LayerOffset::IDENTITY;
    map_function::MapFunction {
        count,
        has_root_identity: mark,
        time_offset: time,
    }
}

// A map's header from plain numbers.
pub fn map_from_numbers(
    count: usize,
    mark: bool,
    offset: f64,
    scale: f64,
) -> map_function::MapFunction
    ensures { result ≡ map_from_numbers count mark offset scale }
{
    map_function::MapFunction {
        count,
        has_root_identity: mark,
        time_offset: layer_offset::LayerOffset { offset, scale },
    }
}

// The direction for a number of the C interface: 0 out, 1 home, any other number translation.
#[tactic(auto, unfolding(crate::specs::Map::direction_of))]
pub fn direction_of(direction: usize) -> mapping::Direction
    ensures { result ≡ direction_of direction }
{
    match direction {
        0 => mapping::Direction::Out,
        1 => mapping::Direction::Home,
        _ => mapping::Direction::Translated,
    }
}

// Writes the offset and the scale.
#[tactic(auto, unfolding(crate::specs::Time::offset_numbers))]
pub fn write_offset(made: layer_offset::LayerOffset, out: &mut [f64; 2])
    ensures { out.new ≡ offset_numbers made }
{
    *out = [made.offset, made.scale];
}

// Writes the bit patterns of the offset and the scale.
#[tactic(auto, unfolding(crate::specs::Time::offset_patterns))]
pub fn write_bits(bits: layer_offset::OffsetBits, out: &mut [u64; 2])
    ensures { out.new ≡ offset_patterns bits }
{
    *out = [bits.0, bits.1];
}

// Encodes the number of pairs and the mark in one number.
#[tactic(auto, unfolding(crate::specs::MapCode::map_value))]
fn map_value(count: usize, mark: bool) -> usize
    ensures { result ≡ map_value count mark }
{
    512 * (count % 36028797018963968) + 256 * usize::from(mark)
}

// Encodes the reply as one number and writes the time offset of a map that was built.
#[tactic(auto, unfolding(crate::specs::MapCode::map_code, crate::specs::MapCode::map_time))]
pub fn map_code(made: Result<map_function::MapFunction, Refusal>, time: &mut [f64; 2]) -> usize
    ensures value { result ≡ map_code made }
    ensures time_after { time.new ≡ map_time made time.old }
{
    match made {
        Ok(f) => {
            write_offset(f.time_offset, time);
            map_value(f.count, f.has_root_identity)
        }
        Err(x) => refusal::number_of(x),
    }
}

// Replaces the map's time offset; its pairs are not touched. Validates their number (question 4).
#[tactic(auto, unfolding(crate::specs::MapCode::with_time_offset_call))]
pub fn with_time_offset(
    map: map_function::MapFunction,
    offset: layer_offset::LayerOffset,
) -> Result<map_function::MapFunction, Refusal>
    ensures { result ≡ with_time_offset_call map offset }
{
    if 64 < map.count {
        return Err(Refusal::TooMany);
    }
    Ok(map.with_time_offset(offset))
}

// Encodes the length and the number of steps in one number.
#[tactic(auto, unfolding(crate::specs::MapCode::chain_value))]
fn chain_value(len: usize, steps: usize) -> usize
    ensures { result ≡ chain_value len steps }
{
    65536 * (steps % 281474976710656) + 256 * (len % 256)
}

// Encodes the reply as one number.
#[tactic(auto, unfolding(crate::specs::MapCode::chain_code))]
pub fn chain_code(c: Result<(usize, usize), Refusal>) -> usize
    ensures { result ≡ chain_code c }
{
    match c {
        Ok((len, steps)) => chain_value(len, steps),
        Err(x) => refusal::number_of(x),
    }
}

// Encodes the value of a reply that is no refusal. Every value is far below 2^56, so the remainder only
// rules out overflow.
#[tactic(auto, unfolding(crate::specs::Code::value_code))]
fn value_code(n: usize) -> usize
    ensures { result ≡ value_code n }
{
    256 * (n % 72057594037927936)
}

// Encodes the result of validation.
#[tactic(auto, unfolding(crate::specs::Code::validation_code))]
pub fn validation_code(q: Result<(), Refusal>) -> usize
    ensures { result ≡ validation_code q }
{
    match q {
        Ok(()) => 0,
        Err(x) => refusal::number_of(x),
    }
}

// Encodes the reply of a test.
#[tactic(auto, unfolding(crate::specs::Code::test_code))]
pub fn test_code(t: Result<bool, Refusal>) -> usize
    ensures { result ≡ test_code t }
{
    match t {
        Ok(b) => 256 * usize::from(b),
        Err(x) => refusal::number_of(x),
    }
}

// Encodes a number of elements.
#[tactic(auto, unfolding(crate::specs::Code::count_code))]
pub fn count_code(n: Result<path_prefix::Elements, Refusal>) -> usize
    ensures { result ≡ count_code n }
{
    match n {
        Ok(e) => value_code(e.0),
        Err(x) => refusal::number_of(x),
    }
}

// Encodes the reply of a call that writes.
#[tactic(auto, unfolding(crate::specs::Code::reply_code))]
pub fn reply_code(r: Result<usize, Refusal>) -> usize
    ensures { result ≡ reply_code r }
{
    match r {
        Ok(n) => value_code(n),
        Err(x) => refusal::number_of(x),
    }
}
