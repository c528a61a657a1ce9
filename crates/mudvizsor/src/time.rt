// The C interface of the functions on time offsets. A time offset passes as two floats, offset and scale; a
// new
// one is written to two lent floats.
ghost use Rattle.std.specs.Prelude.{◌≡◌};
ghost use Rattle.layer_offset.specs.Number.{plus_zero};
ghost use Rattle.layer_offset.specs.Offset.{layer_offset, is_identity, is_valid, is_valid_composition, sanitized, apply_offset, concatenate_offsets, inverse_offset, offset_bits, is_close};
ghost use Rattle.ffi_values.specs.Time.{offset_numbers, offset_patterns};

// Writes the time offset of these two numbers.
#[unsafe(no_mangle)]
pub extern "C" fn mudvizsor_layer_offset_new(offset: f64, scale: f64, out: &mut [f64; 2])
    ensures { out.new ≡ offset_numbers (layer_offset offset scale) }
{
    ffi_values::write_offset(layer_offset::LayerOffset::new(offset, scale), out)
}

// Writes the time offset (0, scale).
#[unsafe(no_mangle)]
pub extern "C" fn mudvizsor_layer_offset_scale_only(scale: f64, out: &mut [f64; 2])
    ensures { out.new ≡ offset_numbers (layer_offset plus_zero scale) }
{
    ffi_values::write_offset(layer_offset::LayerOffset::scale_only(scale), out)
}

// Returns whether both numbers are finite.
#[unsafe(no_mangle)]
pub extern "C" fn mudvizsor_layer_offset_is_valid(offset: f64, scale: f64) -> bool
    ensures { result ≡ is_valid (layer_offset offset scale) }
{
    let given = layer_offset::LayerOffset { offset, scale };
    given.is_valid()
}

// Returns whether the time offset is (0, 1).
#[unsafe(no_mangle)]
pub extern "C" fn mudvizsor_layer_offset_is_identity(offset: f64, scale: f64) -> bool
    ensures { result ≡ is_identity (layer_offset offset scale) }
{
    let given = layer_offset::LayerOffset { offset, scale };
    given.is_identity()
}

// Returns whether the two time offsets are both valid and differ by less than 1e-6 in both numbers, or are
// both invalid with the same bits.
#[unsafe(no_mangle)]
pub extern "C" fn mudvizsor_layer_offset_is_close(
    offset: f64,
    scale: f64,
    other_offset: f64,
    other_scale: f64,
) -> bool
    ensures { result ≡ is_close (layer_offset offset scale) (layer_offset other_offset other_scale) }
{
    let other = layer_offset::LayerOffset {
        offset: other_offset,
        scale: other_scale,
    };
    let given = layer_offset::LayerOffset { offset, scale };
    given.is_close(other)
}

// Writes the bit patterns of both numbers; for any NaN, 0x7ff8_0000_0000_0000.
#[unsafe(no_mangle)]
pub extern "C" fn mudvizsor_layer_offset_to_bits(offset: f64, scale: f64, out: &mut [u64; 2])
    ensures { out.new ≡ offset_patterns (offset_bits (layer_offset offset scale)) }
{
    let given = layer_offset::LayerOffset { offset, scale };
    ffi_values::write_bits(given.to_bits(), out)
}

// Returns the time to which `time` is mapped.
#[unsafe(no_mangle)]
pub extern "C" fn mudvizsor_layer_offset_apply(offset: f64, scale: f64, time: f64) -> f64
    ensures { result ≡ apply_offset (layer_offset offset scale) time }
{
    let given = layer_offset::LayerOffset { offset, scale };
    given.apply(time)
}

// Writes the inverse; (0, 1) if the scale is zero.
#[unsafe(no_mangle)]
pub extern "C" fn mudvizsor_layer_offset_inverse(offset: f64, scale: f64, out: &mut [f64; 2])
    ensures { out.new ≡ offset_numbers (inverse_offset (layer_offset offset scale)) }
{
    let given = layer_offset::LayerOffset { offset, scale };
    ffi_values::write_offset(given.inverse(), out)
}

// Returns whether the time offset can be composed.
#[unsafe(no_mangle)]
pub extern "C" fn mudvizsor_layer_offset_is_valid_composition(offset: f64, scale: f64) -> bool
    ensures { result ≡ is_valid_composition (layer_offset offset scale) }
{
    let given = layer_offset::LayerOffset { offset, scale };
    given.is_valid_composition()
}

// Writes the time offset itself, or (0, 1) if it cannot be composed.
#[unsafe(no_mangle)]
pub extern "C" fn mudvizsor_layer_offset_sanitized(offset: f64, scale: f64, out: &mut [f64; 2])
    ensures { out.new ≡ offset_numbers (sanitized (layer_offset offset scale)) }
{
    let given = layer_offset::LayerOffset { offset, scale };
    ffi_values::write_offset(given.sanitized(), out)
}

// Writes the outer time offset applied after the inner one.
#[unsafe(no_mangle)]
pub extern "C" fn mudvizsor_layer_offset_concatenate(
    offset: f64,
    scale: f64,
    inner_offset: f64,
    inner_scale: f64,
    out: &mut [f64; 2],
)
    ensures { out.new ≡ offset_numbers
        (concatenate_offsets (layer_offset offset scale) (layer_offset inner_offset inner_scale)) }
{
    let inner = layer_offset::LayerOffset {
        offset: inner_offset,
        scale: inner_scale,
    };
    let given = layer_offset::LayerOffset { offset, scale };
    ffi_values::write_offset(given.concatenate(inner), out)
}
