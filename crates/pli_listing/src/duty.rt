// What services do, by number.

/// The duty of a service by its number, in a word or two.
pub fn duty(service: i32) -> &'static str {
    match service {
        1 => "act",
        2 => "end",
        3 => "signature",
        4 => "enter",
        5 => "leave",
        6 => "unwind",
        7 => "make",
        8 => "resolve",
        9 => "address",
        10 => "allocate",
        11 => "free",
        12 => "assign area",
        13 => "empty",
        14 => "pointer or offset",
        15 => "REFER extent",
        16 => "push generation",
        17 => "pop generation",
        18 => "newest generation",
        19 => "count generations",
        20 => "push text",
        21 => "push number",
        _ => later_duty(service),
    }
}

fn later_duty(service: i32) -> &'static str {
    match service {
        22 => "join",
        23 => "cut",
        24 => "compare",
        25 => "find",
        26 => "to number",
        27 => "store text",
        28 => "on",
        29 => "revert",
        30 => "raise",
        31 => "return from unit",
        32 => "retry",
        33 => "oncode",
        34 => "begin list",
        35 => "control item",
        36 => "F",
        37 => "A",
        38 => "end list",
        39 => "SKIP",
        40 => "aggregate",
        41 => "scalar to array",
        _ => "no service",
    }
}
