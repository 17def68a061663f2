// One loop owns the monitor and inspects message after message: each is planned and what was decided is stored in place. Rules and times
// are made from numbers, so that the Rust can be given the same; topics are lent, since what the compiler knows of them it computes beforehand.
ghost use Rattle.std.specs.Prelude.{◌≡◌, ◌-◌, min, max};
ghost use Rattle.loops.specs.Inspections.{readied, loop_allowed};

// How many rules the loop's monitor has, by which a host sees that none was refused. It also gives `readied` a second caller: so it stays a call, and its stack is not the loop's.
#[unsafe(no_mangle)]
pub extern "C" fn hub_loop_rules(rules: u32) -> u16
    ensures { result ≡ (readied (min (max rules 1) 32 - 1)).rule_count }
{
    loops::inspections::hub_loop_rules(rules)
}

#[unsafe(no_mangle)]
pub extern "C" fn hub_loop(rules: u32, topics: &[u8], width: u8, size: u16, messages: u32) -> u64
    ensures { result ≡ loop_allowed (min (max rules 1) 32 - 1) topics.now width size messages }
{
    loops::inspections::hub_loop(rules, topics, width, size, messages)
}
