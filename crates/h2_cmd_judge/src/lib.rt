//! The verdict on a server: what it does beside each item of a case, compared with what this server does, and with what
//! the table of rules lets a server do. Definitions: `specs/Events.antt` (what is seen beside an item),
//! `specs/Judges.antt` (the verdict), `specs/CaseVerdicts.antt` (the verdict in a case), `specs/ServerFrames.antt` (the events of
//! a server's octets), `specs/Readings.antt` (the same as they arrive), `specs/Recorded.antt` (octets that were recorded).
#![tactic(auto)]

pub mod case;
pub mod event;
pub mod frames;
pub mod judge;
pub mod laws;
pub mod reading;
pub mod recorded;
