// What a chip over handed bytes and handed lives means, with its laws: definitions in specs/, no code of the chips themselves.
#![tactic(auto)]

ghost use Rattle.chip_math.specs.Chips.{KeepsAll, Lays};

// Each sector and each life is where it should be, and chips that mean the same hold the same memory, also beyond the last sector.
pub fn chips_stand()
    ensures lies { Lays }
    ensures keeps { KeepsAll }
{}
