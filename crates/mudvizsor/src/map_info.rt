// The C interface of the functions on a map's header: its number of pairs, its mark, and the two floats of
// its time
// offset. They are lent no list, and write no bytes and no places.
ghost use Rattle.std.specs.Prelude.{◌≡◌, Ok};
ghost use Rattle.layer_offset.specs.Offset.{layer_offset, identity_offset};
ghost use Rattle.map_spec.specs.New.{identity_map, null_map};
ghost use Rattle.map_function.specs.MapOutcome.{map_function};
ghost use Rattle.map_function.specs.MapFunction.{is_null, path_is_identity, is_identity_map};
ghost use Rattle.ffi_values.specs.Time.{offset_numbers};
ghost use Rattle.ffi_values.specs.MapCode.{map_from_numbers, map_code, map_time, with_time_offset_call};

// Returns the identity map.
#[unsafe(no_mangle)]
pub extern "C" fn mudvizsor_map_identity(time: &mut [f64; 2]) -> usize
    ensures value { result ≡ map_code (Ok (map_function identity_map identity_offset)) }
    ensures time_after { time.new ≡ map_time (Ok (map_function identity_map identity_offset)) time.old }
{
    let map = map_function::MapFunction::identity();
    ffi_values::map_code(Ok(map), time)
}

// Returns the null map, which maps nothing.
#[unsafe(no_mangle)]
pub extern "C" fn mudvizsor_map_null(time: &mut [f64; 2]) -> usize
    ensures value { result ≡ map_code (Ok (map_function null_map identity_offset)) }
    ensures time_after { time.new ≡ map_time (Ok (map_function null_map identity_offset)) time.old }
{
    let map = map_function::MapFunction::null();
    ffi_values::map_code(Ok(map), time)
}

// Returns whether the map maps nothing.
#[unsafe(no_mangle)]
pub extern "C" fn mudvizsor_map_is_null(count: usize, mark: bool, offset: f64, scale: f64) -> bool
    ensures { result ≡ is_null (map_from_numbers count mark offset scale) }
{
    ffi_values::map_from_numbers(count, mark, offset, scale).is_null()
}

// Returns whether the map is the identity on paths.
#[unsafe(no_mangle)]
pub extern "C" fn mudvizsor_map_path_is_identity(
    count: usize,
    mark: bool,
    offset: f64,
    scale: f64,
) -> bool
    ensures { result ≡ path_is_identity (map_from_numbers count mark offset scale) }
{
    ffi_values::map_from_numbers(count, mark, offset, scale).path_is_identity()
}

// Returns whether the map is the identity on paths and on times.
#[unsafe(no_mangle)]
pub extern "C" fn mudvizsor_map_is_identity(
    count: usize,
    mark: bool,
    offset: f64,
    scale: f64,
) -> bool
    ensures { result ≡ is_identity_map (map_from_numbers count mark offset scale) }
{
    ffi_values::map_from_numbers(count, mark, offset, scale).is_identity()
}

// Returns the mark.
#[unsafe(no_mangle)]
pub extern "C" fn mudvizsor_map_has_root_identity(
    count: usize,
    mark: bool,
    offset: f64,
    scale: f64,
) -> bool
    ensures { result ≡ (map_from_numbers count mark offset scale).has_root_identity }
{
    ffi_values::map_from_numbers(count, mark, offset, scale).has_root_identity()
}

// Writes the time offset.
#[unsafe(no_mangle)]
pub extern "C" fn mudvizsor_map_time_offset(
    count: usize,
    mark: bool,
    offset: f64,
    scale: f64,
    time: &mut [f64; 2],
)
    ensures { time.new ≡ offset_numbers (map_from_numbers count mark offset scale).time_offset }
{
    let map = ffi_values::map_from_numbers(count, mark, offset, scale);
    ffi_values::write_offset(map.time_offset(), time)
}

// Replaces the time offset of the map.
#[unsafe(no_mangle)]
pub extern "C" fn mudvizsor_map_with_time_offset(
    count: usize,
    mark: bool,
    offset: f64,
    scale: f64,
    new_offset: f64,
    new_scale: f64,
    time: &mut [f64; 2],
) -> usize
    ensures value { result ≡ map_code (with_time_offset_call (map_from_numbers count mark offset scale)
        (layer_offset new_offset new_scale)) }
    ensures time_after { time.new ≡ map_time
        (with_time_offset_call (map_from_numbers count mark offset scale) (layer_offset new_offset new_scale))
        time.old }
{
    let map = ffi_values::map_from_numbers(count, mark, offset, scale);
    let new = layer_offset::LayerOffset {
        offset: new_offset,
        scale: new_scale,
    };
    ffi_values::map_code(ffi_values::with_time_offset(map, new), time)
}
