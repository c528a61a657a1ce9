// The effect of a frame of the program `frames` on the open list, the legs and the counters, for any contents
// of the lent buffers: crates/frames_memory/specs/Memory.antt defines it.
#![tactic(auto)]

ghost use Rattle.std.specs.Prelude.{◌≡◌};
ghost use Rattle.refusal.specs.Refusal.{refusal_number};
ghost use Rattle.frames_memory.specs.Memory.{frames_memory};
ghost use Rattle.frame_apply.specs.Done.{count_route, PairDone, CloseDone};

use refusal::Refusal;

// The effect of a frame: the counters after it, and the reply; its payload, if there is one, is at the
// beginning of the payload buffer.
#[derive(Clone, Copy)]
pub struct Effect {
    pub kept: frames_memory::Counters,
    pub reply: Result<usize, Refusal>,
}

// The number of a refusal as a byte.
pub fn number_byte(x: Refusal) -> u8
    ensures { result ≡ refusal_number x }
{
    refusal::number_of(x) as u8
}

// Adds a pair to the open list.
pub fn apply_pair(
    source: &[u8],
    target: &[u8],
    k: frames_memory::Counters,
    bytes: &mut [u8],
    places: &mut [usize],
) -> Effect
    ensures { PairDone source.now target.now k bytes.old places.old
        result.kept result.reply bytes.new places.new }
{
    let opened = k.opened;
    let legs = k.legs;
    let a = open_list::add_pair(opened, source, target, bytes, places);
    match a {
        Ok(o) => Effect {
            kept: frames_memory::Counters {
                opened: o,
                legs,
                outs: k.outs,
            },
            reply: Ok(0),
        },
        Err(x) => Effect {
            kept: k,
            reply: Err(x),
        },
    }
}

// A path frame: counts it if the path was mapped out and it was answered 00.
pub fn count_out(back: bool, k: frames_memory::Counters, r: Result<usize, Refusal>) -> Effect
    ensures { result ≡ record {
      kept = record
          { opened = k.opened; legs = k.legs; outs = count_route back r k.outs };
      reply = r;
    } }
{
    if back || r.is_err() || 4294967295 <= k.outs {
        return Effect { kept: k, reply: r };
    }
    let opened = k.opened;
    let legs = k.legs;
    Effect {
        kept: frames_memory::Counters {
            opened,
            legs,
            outs: k.outs + 1,
        },
        reply: r,
    }
}

// Closes the open list as a leg, a relocate leg if the flag is set, otherwise a map leg.
pub fn apply_close(
    relocates: bool,
    k: frames_memory::Counters,
    bytes: &[u8],
    places: &[usize],
    store: &mut [u8],
    slots: &mut [usize],
    table: &mut [usize],
) -> Effect
    ensures { CloseDone relocates (frames_memory k bytes.now places.now store.old
        slots.old table.old)
        (frames_memory result.kept bytes.now places.now store.new slots.new
        table.new) result.reply }
{
    let opened = k.opened;
    let legs = k.legs;
    let c = close_leg::close(
        relocates,
        bytes,
        places,
        opened.pairs,
        legs,
        store,
        slots,
        table,
    );
    match c {
        Ok(g) => Effect {
            kept: frames_memory::Counters {
                opened: open_list::OpenList { pairs: 0, bytes: 0 },
                legs: g,
                outs: k.outs,
            },
            reply: Ok(0),
        },
        Err(x) => Effect {
            kept: k,
            reply: Err(x),
        },
    }
}
