// Lists of texts in lent memory: reading a text by its place, and appending one. A place is a start and a length
// in a store of bytes. Every public function is defined for any bytes and any numbers.
#![tactic(auto)]

ghost use Rattle.std.specs.Prelude.{◌≡◌, [], ◌∷◌, ◌*◌};
ghost use Rattle.text.specs.Text.{written_if_fits};
ghost use Rattle.text_list.specs.Places.{text_at};
ghost use Rattle.text_list.specs.Packed.{text_end, bytes_with_text, places_with_text};

// Returns the text at place `j`; empty if there is no such place or it reaches outside the store.
pub fn text_at<'a>(store: &'a [u8], places: &[usize], j: usize) -> &'a [u8]
    ensures { result.now ≡ text_at store.now places.now j }
{
    if places.len() / 2 <= j {
        return &store[..0];
    }
    let start = places[2 * j];
    let n = places[2 * j + 1];
    if store.len() < start {
        return &store[..0];
    }
    if store.len() - start < n {
        return &store[..0];
    }
    let end = start + n;
    &store[start..end]
}

// Writes place `j`, a start and a length, if the slice is long enough; otherwise writes nothing.
pub fn write_place(j: usize, start: usize, n: usize, places: &mut [usize])
    ensures { places.new ≡ written_if_fits (2 * j) (start ∷ n ∷ []) places.old }
{
    if places.len() / 2 <= j {
        return;
    }
    let i = 2 * j;
    places[i] = start;
    places[i + 1] = n;
}

// Appends a text to the first n texts, which have `at` bytes, and returns the offset after it; writes nothing and
// returns `at` if it does not fit.
pub fn push_text(t: &[u8], n: usize, at: usize, bytes: &mut [u8], places: &mut [usize]) -> usize
    ensures value { result ≡ text_end t.now n at bytes.old places.old }
    ensures bytes_after { bytes.new ≡ bytes_with_text t.now n at bytes.old
        places.old }
    ensures places_after { places.new ≡ places_with_text t.now n at bytes.old
        places.old }
{
    if bytes.len() < at {
        return at;
    }
    if bytes.len() - at < t.len() {
        return at;
    }
    if places.len() / 2 <= n {
        return at;
    }
    text::write_at(t, at, bytes);
    write_place(n, at, t.len(), places);
    at + t.len()
}
