// Validates what a frame of the program `frames` uses of memory that the caller of a line keeps between two
// calls (questions 1 to 4). Every public function is defined for all byte slices and all numbers.
#![tactic(auto)]

ghost use Rattle.std.specs.Prelude.{◌≡◌, [], ◌∷◌};
ghost use Rattle.route_legs.specs.LentRoute.{lent_route, validate_route};
ghost use Rattle.frame_decode.specs.Header.{last_bytes, action_in};
ghost use Rattle.frames_memory.specs.Memory.{frames_memory};
ghost use Rattle.frames_validate.specs.Checked.{validate_use};

use refusal::Refusal;

// The last n bytes of a frame; the whole frame if it is shorter.
fn last_bytes<'a>(frame: &'a [u8], n: usize) -> &'a [u8]
    ensures { result.now ≡ last_bytes n frame.now }
{
    if frame.len() < n {
        return frame;
    }
    let start = frame.len() - n;
    &frame[start..]
}

// Validates the legs and the path of n bytes that ends the frame (questions 1 to 4).
fn validate_path(
    frame: &[u8],
    n: usize,
    store: &[u8],
    slots: &[usize],
    table: &[usize],
    count: usize,
) -> Result<(), Refusal>
    ensures { result ≡ validate_route (lent_route store.now slots.now table.now count)
        (last_bytes n frame.now ∷ []) }
{
    let q = route_legs::validate_legs(store, slots, table, count);
    validate::first_refusal(q, path::new(last_bytes(frame, n)))
}

// Validates what the frame uses of the memory (questions 1 to 4).
pub fn validate_use(
    header: frame_decode::FrameHeader,
    frame: &[u8],
    k: frames_memory::Counters,
    bytes: &[u8],
    places: &[usize],
    store: &[u8],
    slots: &[usize],
    table: &[usize],
) -> Result<(), Refusal>
    ensures { result ≡ validate_use (frames_memory k bytes.now places.now store.now
        slots.now table.now) (action_in frame.now header) }
{
    let opened = k.opened;
    let legs = k.legs;
    match header {
        frame_decode::FrameHeader::AddPair(n, m) => Ok(()),
        frame_decode::FrameHeader::Statuses => Ok(()),
        frame_decode::FrameHeader::Close(relocates) => {
            validate::validate_list(bytes, places, opened.pairs)
        }
        frame_decode::FrameHeader::Route(back, n) => {
            validate_path(frame, n, store, slots, table, legs.count)
        }
        frame_decode::FrameHeader::Count => Ok(()),
    }
}
