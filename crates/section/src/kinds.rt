// The kinds of steps, as byte 0 holds them: numbered from 1 on. Numbers, since they are bytes of a file; `Step` is the enum of what they say.

pub const ORDER: u8 = 1;

pub const SET: u8 = 2;

pub const ANNOUNCE: u8 = 3;

pub const ACKNOWLEDGE: u8 = 4;

pub const START: u8 = 5;

pub const PASS: u8 = 6;

pub const LEAVE: u8 = 7;

pub const MEASURES_ON: u8 = 8;

pub const MEASURES_OFF: u8 = 9;

pub const FAULT_ON: u8 = 10;

pub const FAULT_OFF: u8 = 11;

pub const RELEASE: u8 = 12;

pub const KEY: u8 = 13;

pub const CAUTION: u8 = 14;

pub const LAST: u8 = CAUTION;
