// The cases through the code: P1 to P12, FIFO, CLOCK and LRU, the limits, each soundness rule broken by itself, and the
// pages 0 and 4,294,967,295. It prints what each call gave, and the gate compares that with the file stdout.
#![tactic(auto)]

use directory::Answer;
use engine::kinds::Kind;
use std::io;
use tally::Tally;
use terms::refusals::Refusal;

// A mark, then an answer: its number, kind, page, list and moves.
fn show_answer(rt: &impl Print, mark: &str, answered: Result<Answer, Refusal>) -> io::Result<()> {
    match answered {
        Ok(a) => {
            println!(rt;
                "{mark} 0 {} {} {} {}",
                u32::from(a.kind),
                a.page,
                a.list,
                a.moves
            )
        }
        Err(refusal) => println!(rt; "{mark} {} 0 0 0 0", u32::from(refusal)),
    }
}

// A mark, then the number of a call that answers nothing else.
fn show_number(rt: &impl Print, mark: &str, done: Result<(), Refusal>) -> io::Result<()> {
    match done {
        Ok(()) => println!(rt; "{mark} 0"),
        Err(refusal) => println!(rt; "{mark} {}", u32::from(refusal)),
    }
}

fn show_words(rt: &impl Print, dir: &[u32]) -> io::Result<()> {
    print!(rt; "  words")?;
    for word in dir {
        print!(rt; " {word}")?;
    }
    println!(rt)
}

// The trace from a fresh directory, and the last request's answer.
fn replay(policy: u32, c: u32, trace: &[u32], dir: &mut [u32]) -> Result<Answer, Refusal> {
    directory::fresh(policy, c, dir)?;
    let mut last = Answer {
        kind: Kind::Hit,
        page: 0,
        list: 0,
        moves: 0,
    };
    for &page in trace {
        last = directory::request(dir, page)?;
    }
    Ok(last)
}

fn case(
    rt: &impl Print,
    mark: &str,
    policy: u32,
    c: u32,
    trace: &[u32],
    dir: &mut [u32],
) -> io::Result<()> {
    show_answer(rt, mark, replay(policy, c, trace, dir))?;
    show_words(rt, dir)
}

// The check of the directory with the word at another value, which is then put back.
fn broken(rt: &impl Print, mark: &str, dir: &mut [u32], at: usize, value: u32) -> io::Result<()> {
    if at < dir.len() {
        let old = dir[at];
        dir[at] = value;
        show_number(rt, mark, directory::check(dir))?;
        dir[at] = old;
    }
    Ok(())
}

fn worked_cases(rt: &impl Print) -> io::Result<()> {
    let mut one = [0u32; 12];
    let mut two = [0u32; 16];
    let trace = [1u32, 2, 1, 3, 2, 1, 4, 2, 5];
    let again = [1u32, 2, 1, 2, 3];
    case(rt, "P1", 1, 2, &trace[..4], &mut two)?;
    case(rt, "P2", 1, 2, &trace[..5], &mut two)?;
    case(rt, "P3", 1, 2, &trace[..7], &mut two)?;
    case(rt, "P4", 1, 2, &trace[..8], &mut two)?;
    case(rt, "P5", 1, 2, &trace, &mut two)?;
    case(rt, "P6", 2, 2, &trace[..4], &mut two)?;
    case(rt, "P7", 2, 2, &trace[..5], &mut two)?;
    case(rt, "P8", 2, 2, &trace[..7], &mut two)?;
    case(rt, "P9", 2, 2, &trace[..8], &mut two)?;
    case(rt, "P10", 1, 2, &again, &mut two)?;
    case(rt, "P11", 2, 2, &again, &mut two)?;
    case(rt, "P12", 1, 1, &trace[..2], &mut one)
}

// C1 to C15 of crates/figures/specs/Cases.antt.
fn classics(rt: &impl Print) -> io::Result<()> {
    let mut one = [0u32; 12];
    let mut two = [0u32; 16];
    let mut three = [0u32; 20];
    let mut four = [0u32; 24];
    let trace = [1u32, 2, 1, 3, 2, 1];
    let again = [1u32, 2, 1, 2, 3];
    let single = [1u32, 1, 2];
    let apart = [1u32, 2, 1, 3, 4, 5];
    let middle = [1u32, 2, 3, 4, 2];
    case(rt, "C1", 3, 2, &trace[..3], &mut two)?;
    case(rt, "C2", 4, 2, &trace[..3], &mut two)?;
    case(rt, "C3", 5, 2, &trace[..3], &mut two)?;
    case(rt, "C4", 3, 2, &trace[..4], &mut two)?;
    case(rt, "C5", 4, 2, &trace[..4], &mut two)?;
    case(rt, "C6", 5, 2, &trace[..4], &mut two)?;
    case(rt, "C7", 3, 2, &trace, &mut two)?;
    case(rt, "C8", 4, 2, &again, &mut two)?;
    case(rt, "C9", 3, 1, &single, &mut one)?;
    case(rt, "C10", 4, 1, &single, &mut one)?;
    case(rt, "C11", 5, 1, &single, &mut one)?;
    case(rt, "C12", 3, 3, &apart, &mut three)?;
    case(rt, "C13", 4, 3, &apart, &mut three)?;
    case(rt, "C14", 5, 3, &apart, &mut three)?;
    case(rt, "C15", 5, 4, &middle, &mut four)
}

fn pages_at_the_ends(rt: &impl Print) -> io::Result<()> {
    let mut two = [0u32; 16];
    let ends = [0u32, 4294967295, 0, 7, 4294967295];
    case(rt, "pages 0 and 4294967295, CAR", 1, 2, &ends, &mut two)?;
    case(rt, "pages 0 and 4294967295, CART", 2, 2, &ends, &mut two)
}

fn sizes_of_a_fresh_directory(rt: &impl Print) -> io::Result<()> {
    let mut words7 = [0u32; 7];
    let mut words8 = [0u32; 8];
    let mut words12 = [0u32; 12];
    let mut words15 = [0u32; 15];
    let mut words16 = [0u32; 16];
    let mut words17 = [0u32; 17];
    let mut words4108 = [0u32; 4108];
    show_number(rt, "fresh c=1", directory::fresh(1, 1, &mut words12))?;
    show_number(rt, "fresh c=0", directory::fresh(1, 0, &mut words8))?;
    show_number(
        rt,
        "fresh c=1025",
        directory::fresh(1, 1025, &mut words4108),
    )?;
    show_number(rt, "fresh policy 0", directory::fresh(0, 2, &mut words16))?;
    show_number(rt, "fresh policy 5", directory::fresh(5, 2, &mut words16))?;
    show_number(rt, "fresh policy 6", directory::fresh(6, 2, &mut words16))?;
    show_number(
        rt,
        "fresh policy 6, c=0, 7 words",
        directory::fresh(6, 0, &mut words7),
    )?;
    show_number(
        rt,
        "fresh a word short",
        directory::fresh(1, 2, &mut words15),
    )?;
    show_number(
        rt,
        "fresh a word long",
        directory::fresh(1, 2, &mut words17),
    )
}

fn largest_directory(rt: &impl Print) -> io::Result<()> {
    let mut words = [0u32; 4104];
    show_number(rt, "fresh c=1024", directory::fresh(2, 1024, &mut words))?;
    show_number(rt, "check c=1024", directory::check(&words))?;
    show_answer(rt, "request c=1024", directory::request(&mut words, 5))
}

fn sizes_of_a_checked_directory(rt: &impl Print) -> io::Result<()> {
    let none = [0u32; 0];
    let words7 = [1u32, 2, 0, 0, 0, 0, 0];
    let words15 = [1u32, 2, 0, 0, 0, 0, 0, 0, 0, 0, 0, 0, 0, 0, 0];
    let words17 = [1u32, 2, 0, 0, 0, 0, 0, 0, 0, 0, 0, 0, 0, 0, 0, 0, 0];
    let mut short = words15;
    show_number(rt, "check 0 words", directory::check(&none))?;
    show_number(rt, "check 7 words", directory::check(&words7))?;
    show_number(rt, "check a word short", directory::check(&words15))?;
    show_number(rt, "check a word long", directory::check(&words17))?;
    show_answer(
        rt,
        "request a word short",
        directory::request(&mut short, 9),
    )?;
    show_words(rt, &short)
}

fn words_out_of_range(rt: &impl Print) -> io::Result<()> {
    let mut two = [0u32; 16];
    let _ = directory::fresh(1, 2, &mut two);
    broken(rt, "check c=0", &mut two, 1, 0)?;
    broken(rt, "check c=1025", &mut two, 1, 1025)?;
    broken(rt, "check policy 0", &mut two, 0, 0)?;
    broken(rt, "check policy 6", &mut two, 0, 6)
}

// The rules that all policies have, each broken by itself: U7 to U20 of crates/figures/specs/Cases.antt without U9.
fn broken_rules(rt: &impl Print) -> io::Result<()> {
    let mut two = [0u32; 16];
    let trace = [1u32, 2, 1, 3, 2, 1, 4];
    let long = [1u32, 2, 0, 0, 2, 1, 0, 0, 4, 0, 3, 0, 1, 0, 0, 0];
    let room_b1 = [1u32, 2, 0, 0, 1, 0, 1, 0, 4, 0, 3, 0, 0, 0, 0, 0];
    let room_b2 = [1u32, 2, 0, 0, 1, 0, 0, 1, 4, 0, 3, 0, 0, 0, 0, 0];
    let unused = [1u32, 2, 0, 0, 1, 0, 0, 0, 4, 0, 1, 0, 0, 0, 0, 0];
    // after P3: T1 = 4, T2 = 1, B1 = 3, B2 = 2
    let _ = replay(1, 2, &trace, &mut two);
    show_number(rt, "sound CAR", directory::check(&two))?;
    broken(rt, "p over c", &mut two, 2, 3)?;
    show_number(rt, "T1 and T2 too long", directory::check(&long))?;
    broken(rt, "B1 and B2 too long", &mut two, 7, 2)?;
    show_number(rt, "B1 while there is room", directory::check(&room_b1))?;
    show_number(rt, "B2 while there is room", directory::check(&room_b2))?;
    broken(rt, "a page in T1 and T2", &mut two, 10, 4)?;
    broken(rt, "a page in T1 and B2", &mut two, 14, 4)?;
    broken(rt, "flags of 4, first entry", &mut two, 9, 4)?;
    broken(rt, "flags of 4, last entry", &mut two, 15, 4)?;
    broken(rt, "a bit in B1", &mut two, 13, 1)?;
    broken(rt, "a bit in B2", &mut two, 15, 1)?;
    show_number(rt, "the first unused word", directory::check(&unused))?;
    let _ = directory::fresh(1, 2, &mut two);
    broken(rt, "the last unused word", &mut two, 15, 1)
}

// The rules of CAR: U21 to U24.
fn broken_rules_of_car(rt: &impl Print) -> io::Result<()> {
    let mut two = [0u32; 16];
    let trace = [1u32, 2, 1, 3, 2, 1, 4];
    let long = [1u32, 2, 0, 0, 2, 0, 1, 0, 4, 0, 1, 0, 3, 0, 0, 0];
    // after P3: T1 = 4, T2 = 1, B1 = 3, B2 = 2
    let _ = replay(1, 2, &trace, &mut two);
    broken(rt, "q for CAR", &mut two, 3, 1)?;
    broken(rt, "a filter in T1 for CAR", &mut two, 9, 2)?;
    broken(rt, "a filter in B2 for CAR", &mut two, 15, 2)?;
    show_number(rt, "T1 and B1 too long for CAR", directory::check(&long))
}

// The rules of CART: U25 to U28, and U9, for |T1| + |T2| would wrap to 0.
fn broken_rules_of_cart(rt: &impl Print) -> io::Result<()> {
    let mut two = [0u32; 16];
    let trace = [1u32, 2, 1, 3, 2, 1, 4];
    // after P8: T1 = 4, T2 = 1, B1 = 3, B2 = 2
    let _ = replay(2, 2, &trace, &mut two);
    show_number(rt, "sound CART", directory::check(&two))?;
    broken(rt, "q over 2c", &mut two, 3, 5)?;
    broken(rt, "an S page in T2", &mut two, 11, 0)?;
    broken(rt, "an S page in B2", &mut two, 15, 0)?;
    broken(rt, "an L page in B1", &mut two, 13, 2)?;
    broken(rt, "T1 of 4294967295", &mut two, 4, 4294967295)
}

// The rules of FIFO, CLOCK and LRU: U29 to U37.
fn broken_rules_of_the_classics(rt: &impl Print) -> io::Result<()> {
    let mut clock = [4u32, 2, 0, 0, 2, 0, 0, 0, 4, 0, 1, 0, 0, 0, 0, 0];
    let mut fifo = [3u32, 2, 0, 0, 2, 0, 0, 0, 4, 0, 1, 0, 0, 0, 0, 0];
    let mut lru = [5u32, 2, 0, 0, 2, 0, 0, 0, 4, 0, 1, 0, 0, 0, 0, 0];
    let in_t2 = [4u32, 2, 0, 0, 1, 1, 0, 0, 4, 0, 1, 0, 0, 0, 0, 0];
    let in_b1 = [4u32, 2, 0, 0, 2, 0, 1, 0, 4, 0, 1, 0, 3, 0, 0, 0];
    let in_b2 = [4u32, 2, 0, 0, 2, 0, 0, 1, 4, 0, 1, 0, 3, 0, 0, 0];
    show_number(rt, "sound CLOCK", directory::check(&clock))?;
    broken(rt, "p for CLOCK", &mut clock, 2, 1)?;
    broken(rt, "q for CLOCK", &mut clock, 3, 1)?;
    show_number(rt, "a page in T2 for CLOCK", directory::check(&in_t2))?;
    show_number(rt, "a page in B1 for CLOCK", directory::check(&in_b1))?;
    show_number(rt, "a page in B2 for CLOCK", directory::check(&in_b2))?;
    broken(rt, "a filter for CLOCK", &mut clock, 11, 2)?;
    broken(rt, "a bit for CLOCK", &mut clock, 11, 1)?;
    broken(rt, "a bit for FIFO", &mut fifo, 11, 1)?;
    broken(rt, "a bit for LRU", &mut lru, 9, 1)?;
    broken(rt, "p for FIFO", &mut fifo, 2, 1)
}

// Sound directories at the limits: S1 to S5, S8 to S10.
fn directories_at_the_limits(rt: &impl Print) -> io::Result<()> {
    let full = [1u32, 2, 2, 0, 1, 1, 1, 1, 4, 1, 1, 1, 3, 0, 2, 0];
    let flags = [2u32, 2, 2, 4, 1, 1, 1, 1, 4, 3, 1, 3, 3, 0, 2, 2];
    let short = [2u32, 2, 0, 0, 2, 0, 2, 0, 0, 0, 4294967295, 1, 3, 0, 2, 0];
    let t2_b2 = [1u32, 2, 0, 0, 0, 2, 0, 2, 4, 0, 0, 0, 3, 0, 2, 0];
    let room = [1u32, 2, 0, 0, 1, 0, 0, 0, 4, 1, 0, 0, 0, 0, 0, 0];
    let fifo = [3u32, 2, 0, 0, 2, 0, 0, 0, 4, 0, 0, 0, 0, 0, 0, 0];
    let clock = [4u32, 2, 0, 0, 2, 0, 0, 0, 4, 1, 1, 1, 0, 0, 0, 0];
    let lru = [5u32, 2, 0, 0, 2, 0, 0, 0, 4, 0, 1, 0, 0, 0, 0, 0];
    show_number(rt, "CAR at the limits", directory::check(&full))?;
    show_number(rt, "CART at the limits", directory::check(&flags))?;
    show_number(rt, "CART, T1 and B1 of 2c", directory::check(&short))?;
    show_number(rt, "CAR, T2 and B2 of 2c", directory::check(&t2_b2))?;
    show_number(rt, "CAR with room", directory::check(&room))?;
    show_number(rt, "FIFO, full", directory::check(&fifo))?;
    show_number(rt, "CLOCK, all bits set", directory::check(&clock))?;
    show_number(rt, "LRU, full", directory::check(&lru))
}

// Two pages whose bits are the same in the set by which crate differing tells pages apart; and one of them twice.
fn pages_of_the_same_bits(rt: &impl Print) -> io::Result<()> {
    let mut alike = [1u32, 2, 0, 0, 2, 0, 0, 0, 7, 0, 449675271, 0, 0, 0, 0, 0];
    show_number(rt, "two pages of the same bits", directory::check(&alike))?;
    broken(rt, "one of them twice", &mut alike, 10, 7)
}

// A mark, then a run's answer: its number, then requests, hits, misses, evictions and moves.
fn show_run(rt: &impl Print, mark: &str, ran: Result<Tally, Refusal>) -> io::Result<()> {
    match ran {
        Ok(t) => {
            println!(rt;
                "{mark} 0 {} {} {} {} {}",
                t.requests, t.hits, t.misses, t.evictions, t.moves
            )
        }
        Err(refusal) => println!(rt; "{mark} {} 0 0 0 0 0", u32::from(refusal)),
    }
}

// The worked run of document 01. The last word of the answers stays.
fn worked_run(rt: &impl Print, mark: &str, policy: u32) -> io::Result<()> {
    let mut two = [0u32; 16];
    let mut answers = [9u32; 33];
    let trace = [1u32, 2, 1, 3, 2, 1, 4, 2];
    let _ = directory::fresh(policy, 2, &mut two);
    show_run(rt, mark, directory::run(&mut two, &trace, &mut answers))?;
    show_words(rt, &two)?;
    show_words(rt, &answers)
}

// 1,000 pages are taken, 1,001 refused; a damaged directory is refused first.
fn runs_at_the_ends(rt: &impl Print) -> io::Result<()> {
    let mut two = [0u32; 16];
    let mut damaged = [1u32, 2, 3, 0, 0, 0, 0, 0, 0, 0, 0, 0, 0, 0, 0, 0];
    let none = [0u32; 0];
    let most = [7u32; 1000];
    let many = [7u32; 1001];
    let mut answers = [0u32; 4000];
    let mut short = [0u32; 3999];
    let mut empty = [0u32; 0];
    let _ = directory::fresh(1, 2, &mut two);
    show_run(
        rt,
        "run of no page",
        directory::run(&mut two, &none, &mut empty),
    )?;
    show_run(
        rt,
        "run of 1001 pages",
        directory::run(&mut two, &many, &mut empty),
    )?;
    show_run(
        rt,
        "run of 1001 pages, damaged",
        directory::run(&mut damaged, &many, &mut empty),
    )?;
    show_run(
        rt,
        "run of 1000 pages, a word short",
        directory::run(&mut two, &most, &mut short),
    )?;
    show_words(rt, &two)?;
    show_run(
        rt,
        "run of 1000 pages",
        directory::run(&mut two, &most, &mut answers),
    )?;
    show_words(rt, &two)
}

fn main(rt: HostRuntime) -> io::Result<()> {
    worked_cases(&rt)?;
    classics(&rt)?;
    pages_at_the_ends(&rt)?;
    sizes_of_a_fresh_directory(&rt)?;
    largest_directory(&rt)?;
    sizes_of_a_checked_directory(&rt)?;
    words_out_of_range(&rt)?;
    broken_rules(&rt)?;
    broken_rules_of_car(&rt)?;
    broken_rules_of_cart(&rt)?;
    broken_rules_of_the_classics(&rt)?;
    directories_at_the_limits(&rt)?;
    pages_of_the_same_bits(&rt)?;
    worked_run(&rt, "worked run, CAR", 1)?;
    worked_run(&rt, "worked run, CART", 2)?;
    worked_run(&rt, "worked run, FIFO", 3)?;
    worked_run(&rt, "worked run, CLOCK", 4)?;
    worked_run(&rt, "worked run, LRU", 5)?;
    runs_at_the_ends(&rt)
}
