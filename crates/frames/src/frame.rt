// The calls that a frame can hold, with fields of exactly the widths that a frame has for them.

// A submission: its station, the kind of its call, the five coordinates, and the curve.
#[derive(Clone, Copy, Debug, PartialEq, Eq)]
pub struct Submission {
    pub station: u8,
    pub kind: u8,
    pub grade: u16,
    pub weight: i32,
    pub moisture: i32,
    pub speed: i32,
    pub draw: i32,
    pub curve: u32,
}

// The factors of an opening, for the axes 2 to 5.
#[derive(Clone, Copy, Debug, PartialEq, Eq)]
pub struct Factors {
    pub weight: u16,
    pub moisture: u16,
    pub speed: u16,
    pub draw: u16,
}

// A frame, kinds 1 to 8 in this order.
#[derive(Clone, Copy, Debug, PartialEq, Eq)]
pub enum Frame {
    Open {
        places: u16,
        limit: u32,
    },
    Submit(Submission),
    Step {
        station: u8,
    },
    Take {
        station: u8,
    },
    Run {
        station: u8,
    },
    OpenScaled {
        places: u16,
        limit: u32,
        factors: Factors,
    },
    OpenRuled {
        places: u16,
        limit: u32,
        factors: Factors,
        rule: u8,
    },
    Withdraw {
        station: u8,
    },
}
