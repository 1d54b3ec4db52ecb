// What runs while the motor does: the counts of bits 4, 7 and 14, and the speed reference.
// Settings and tick stay two arguments, as in the definitions: a drive holds the ones and is handed the other, so a struct of both would be
// made for each call and taken apart in it.
#![tactic(auto)]

mod counts;
mod reference;

// The flux slots: ticks of the present slot, whether one of them was bad, and bad slots in a row.
#[derive(Clone, Copy)]
pub struct Slots {
    pub ticks: u32,
    pub bad: bool,
    pub bad_slots: u32,
}

#[derive(Clone, Copy)]
pub struct Run {
    pub slots: Slots,
    pub rotor_lock_ticks: u32,
    pub hall_still_ticks: u32,
    pub reference: i32,
}

// The three counts after a tick, and which of their causes stand.
#[derive(Clone, Copy)]
pub struct Watched {
    pub slots: Slots,
    pub rotor_lock_ticks: u32,
    pub hall_still_ticks: u32,
    pub flux: bool,
    pub locked: bool,
    pub timeout: bool,
}

// What every state but MOTORRUN holds; a constant and no `Default`, since it is named by what it means where it is used.
pub const AT_REST: Run = Run {
    slots: Slots {
        ticks: 0,
        bad: false,
        bad_slots: 0,
    },
    rotor_lock_ticks: 0,
    hall_still_ticks: 0,
    reference: 0,
};
