// The bench sheet's lines by program (data sheet 14.2), each from power-on: a line of output for each answer.
// The frames of the sheet are the stored input of the program `bench`.
#![tactic(auto)]

use std::io::Print;

// What cannot be written is left out, and what follows it is tried: the number and the end of its line are two writes.
fn line(rt: &impl Print, number: u8) {
    let _ = print!(rt; "{}", number);
    let _ = println!(rt; "");
}

// The answer of a write transaction.
fn wrote(rt: &impl Print, bytes: &[u8]) {
    let done = device::write(device::power_on(), bytes);
    line(rt, done.answer);
}

// The answer of a power sample.
fn sampled(rt: &impl Print, power: u16) {
    let done = device::sample(device::power_on(), power);
    line(rt, done.answer);
}

// The answer of a read of STATUS_WORD.
fn read_status_word(rt: &impl Print, reply: &mut [u8]) {
    let done = device::read(device::power_on(), &[0xC0, 0x79, 0xC1], reply);
    line(rt, done.answer);
}

fn main(rt: HostRuntime) {
    let _ = print!(rt; "{:02x}", pec::pec(b"123456789"));
    let _ = println!(rt; "");
    wrote(&rt, &[0xC0, 0x00, 0x07]);
    wrote(&rt, &[0xC0, 0x00, 0x08]);
    wrote(&rt, &[0xC0, 0x00]);
    wrote(&rt, &[0xC0, 0x00, 0x01, 0x00, 0x00]);
    wrote(&rt, &[0xC0, 0x47, 0x80]);
    wrote(&rt, &[0xC0, 0x7A, 0x80]);
    sampled(&rt, 32767);
    sampled(&rt, 32768);
    read_status_word(&rt, &mut [0; 1]);
    read_status_word(&rt, &mut [0; 2]);
    read_status_word(&rt, &mut [0; 3]);
    read_status_word(&rt, &mut [0; 4]);
}
