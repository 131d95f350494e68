// The words of the C boundary on listed inputs: answers, profiles, a row and a report, a word to a line.
#![tactic(auto)]

use answer::Figures;
use error::Code;
use profile::{TStdBranch, TStdStream};
use report::{TStdChainStats, TStdReport, TStdViolation};
use std::io;
use words::Finite;

fn print_all(rt: &impl Print, words: &[u64]) -> io::Result<()> {
    for word in words {
        println!(rt; "{word}")?;
    }
    Ok(())
}

fn print_stream(rt: &impl Print, stream: TStdStream) -> io::Result<()> {
    println!(rt; "{}", stream.pid)?;
    println!(rt; "{}", stream.model.rx_bps)?;
    match stream.model.branch {
        TStdBranch::Main { buffer_size } => { println!(rt; "{buffer_size}") }
        TStdBranch::Video {
            rbx_bps,
            mb_size,
            eb_size,
        } => { println!(rt; "{rbx_bps}\n{mb_size}\n{eb_size}") }
    }
}

// The answer's word: 0 where the profile is read.
fn word_of(profile: &[u64]) -> u64 {
    words::answer_word(Code::told(words::profile_of(profile)))
}

fn print_profile(rt: &impl Print, profile: &[u64]) -> io::Result<()> {
    println!(rt; "{}", word_of(profile))?;
    let Ok(config) = words::profile_of(profile) else {
        return Ok(());
    };
    println!(rt; "{}", config.pcr_pid)?;
    println!(rt; "{}", config.stream_count)?;
    println!(rt; "{}", config.system_count)?;
    println!(rt; "{}", config.queue_depth)?;
    println!(rt; "{}", config.clock_depth)?;
    for stream in &config.streams[..3] {
        print_stream(rt, *stream)?;
    }
    for pid in &config.system_pids[1..4] {
        println!(rt; "{pid}")?;
    }
    Ok(())
}

// A main stream, a video stream and three system PIDs; every word that does not count is 70000.
fn sample() -> [u64; 69] {
    let mut words = [70000u64; 69];
    words[0] = 256;
    words[1] = 2;
    words[2] = 3;
    words[3] = 8192;
    words[4] = 3000;
    words[5] = 257;
    words[6] = 2000000;
    words[7] = 0;
    words[8] = 3584;
    words[11] = 258;
    words[12] = 18000000;
    words[13] = 1;
    words[14] = 10500000;
    words[15] = 10000;
    words[16] = 229376;
    words[53] = 0;
    words[54] = 1;
    words[55] = 32;
    words
}

// The number for the sample with one word changed.
fn print_changed(rt: &impl Print, place: usize, word: u64) -> io::Result<()> {
    let mut words = sample();
    words[place % 69] = word;
    println!(rt; "{}", word_of(&words))
}

fn print_rows(rt: &impl Print) -> io::Result<()> {
    let mut chain = TStdChainStats::new(257);
    chain.peak_tb_bytes = 11;
    chain.peak_main_bytes = 12;
    chain.peak_eb_bytes = 13;
    chain.access_units = 14;
    chain.max_delay_seconds = 1.5;
    let mut figures = Figures::new();
    figures.rows[0] = chain;
    chain.pid = 258;
    figures.rows[1] = chain;
    figures.count = 2;
    let mut whole = [99u64; 13];
    words::write_row(figures, &mut whole);
    print_all(rt, &whole)?;
    let mut short = [99u64; 11];
    words::write_row(figures, &mut short);
    print_all(rt, &short)
}

fn print_report(rt: &impl Print) -> io::Result<()> {
    let one = TStdReport::new()
        .record(TStdViolation::DelayOverOneSecond {
            pid: 257,
            decode_time: 1.5,
            delay_seconds: 2.0,
        })
        .report;
    let two = one
        .record(TStdViolation::MainOverflow {
            pid: 258,
            peak_bytes: 4000,
            limit: 3584,
        })
        .report;
    let report = TStdReport {
        pcr_samples: 5,
        modelled_seconds: 1.0,
        ..two
    };
    let mut words = [99u64; 324];
    words::write_report::<Finite>(report, &mut words);
    print_all(rt, &words)?;
    let mut other = [99u64; 3];
    words::write_report::<Finite>(report, &mut other);
    print_all(rt, &other)
}

fn main(rt: HostRuntime) -> io::Result<()> {
    let full = Code {
        number: 10,
        place: 98765,
        pid: 4660,
    };
    println!(rt; "{}", words::answer_word(full))?;
    let far = Code {
        number: 255,
        place: u64::MAX,
        pid: u16::MAX,
    };
    println!(rt; "{}", words::answer_word(far))?;
    print_profile(&rt, &sample())?;
    print_changed(&rt, 0, 65536)?;
    print_changed(&rt, 1, 9)?;
    print_changed(&rt, 2, 17)?;
    print_changed(&rt, 7, 2)?;
    print_changed(&rt, 55, 65536)?;
    print_changed(&rt, 56, 65536)?;
    println!(rt; "{}", word_of(&[0; 68]))?;
    print_rows(&rt)?;
    print_report(&rt)
}
