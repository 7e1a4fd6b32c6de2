//! The lines of a netlist.
ghost use Rattle.std.specs.Prelude.{◌≡◌, ◌+◌, ◌<◌, ◌++◌, OnOk, IfOk, decimal, length, string_bytes};
ghost use Rattle.net_list.specs.Lines.{device_line, device_lines, head_line, kind_word, layer_words, place_words};
ghost use Rattle.net_list.specs.{Lines.{size_words, terminal_words}, Counts.{counts_words, counts_lines}};

use crate::counting::PieceCounts;
use itoa::Buffer;
use net_model::Device;
use std::alloc::{AllocError, Global};

/// The first line: how many nets and devices there are. The only refusal is want of memory.
pub fn head_line(alloc: Global, nets: u32, devices: usize) -> Result<String, AllocError>
    ensures { IfOk result (λ line. string_bytes line ≡ head_line nets devices) }
{
    format!(in alloc; "nets {nets} devices {devices}\n")
}

// Adds a word and a number.
fn push_number(out: &mut Vec<u8>, word: &'static [u8], number: usize) -> Result<(), AllocError>
    ensures { OnOk result (out.new.items ≡ out.old.items ++ (word.now ++ decimal number)) }
{
    let mut digits = Buffer::new();
    out.extend_from_slice(word)?;
    out.extend_from_slice(digits.format(number).as_bytes())?;
    Ok(())
}

/// Adds a net: its number, and how many pieces it has by layer. The only refusal is want of memory.
pub fn push_net(out: &mut Vec<u8>, net: usize, counts: PieceCounts) -> Result<(), AllocError>
    ensures { OnOk result (out.new.items ≡ out.old.items ++ counts_words net counts) }
{
    push_number(out, b"net ", net)?;
    push_counts(out, counts.diffusion, counts.poly, counts.metal)
}

// Adds how many pieces there are by layer. Most nets have so few that each number is a digit; then all words go into
// the text at once.
fn push_counts(
    out: &mut Vec<u8>,
    diffusion: usize,
    poly: usize,
    metal: usize,
) -> Result<(), AllocError>
    ensures { OnOk result (out.new.items ≡ out.old.items ++ layer_words diffusion poly metal) }
{
    if diffusion < 10 && poly < 10 && metal < 10 {
        let (nd, np, nm) = (digit(diffusion), digit(poly), digit(metal));
        let words = [
            b' ', b'n', b'd', b' ', nd, b' ', b'n', b'p', b' ', np, b' ', b'n', b'm', b' ', nm,
        ];
        out.extend_from_slice(&words)?;
        return Ok(());
    }
    push_number(out, b" nd ", diffusion)?;
    push_number(out, b" np ", poly)?;
    push_number(out, b" nm ", metal)?;
    Ok(())
}

// The digit of a number below ten.
fn digit(number: usize) -> u8
    requires { number < 10 }
    ensures { result ≡ 48 + number }
{
    b'0' + number as u8
}

/// Adds a line for each net, of which these are the counts. The only refusal is want of memory.
pub fn push_nets(out: &mut Vec<u8>, counts: &[PieceCounts]) -> Result<(), AllocError>
    ensures { OnOk result (out.new.items ≡ out.old.items ++ counts_lines 0 counts.now) }
{
    for (net, count) in counts.iter().enumerate() {
        push_net(out, net, *count)?;
        out.push(b'\n')?;
    }
    Ok(())
}

/// The word for a kind of transistor.
pub fn kind_word(depletion: bool) -> &'static str
    ensures { result.now ≡ kind_word depletion }
{
    if depletion { "dep" } else { "enh" }
}

fn write_size(alloc: Global, number: usize, device: &Device) -> Result<String, AllocError>
    ensures { IfOk result (λ words. string_bytes words ≡ size_words number device.now) }
{
    let kind = kind_word(device.depletion);
    let w = device.w;
    let l = device.l;
    format!(in alloc; "device {number} {kind} w {w} l {l}")
}

/// The nets of the terminals of a transistor. The only refusal is want of memory.
pub fn terminal_words(alloc: Global, gate: u32, low: u32, high: u32) -> Result<String, AllocError>
    ensures { IfOk result (λ words. string_bytes words ≡ terminal_words gate low high) }
{
    format!(in alloc; " gate {gate} low {low} high {high}")
}

fn write_place(alloc: Global, device: &Device) -> Result<String, AllocError>
    ensures { IfOk result (λ words. string_bytes words ≡ place_words device.now) }
{
    let x = device.channel.x.lo;
    let y = device.channel.y.lo;
    format!(in alloc; " at {x} {y}\n")
}

// Adds the line of a device.
fn push_device(
    out: &mut Vec<u8>,
    alloc: Global,
    number: usize,
    device: &Device,
) -> Result<(), AllocError>
    ensures { OnOk result (out.new.items ≡ out.old.items ++ device_line number device.now) }
{
    let size = write_size(alloc, number, device)?;
    let terminals = terminal_words(alloc, device.gate, device.low, device.high)?;
    let place = write_place(alloc, device)?;
    out.extend_from_slice(size.as_bytes())?;
    out.extend_from_slice(terminals.as_bytes())?;
    out.extend_from_slice(place.as_bytes())?;
    Ok(())
}

/// Adds a line for each device. The only refusal is want of memory.
pub fn push_devices(out: &mut Vec<u8>, alloc: Global, devices: &[Device]) -> Result<(), AllocError>
    ensures { OnOk result (out.new.items ≡ out.old.items ++ device_lines 0 devices.now) }
{
    for (number, device) in devices.iter().enumerate() {
        push_device(out, alloc, number, device)?;
    }
    Ok(())
}
