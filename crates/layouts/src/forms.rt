// Each form, from the word functions.
use crate::print::listed;
use computes::compute_word;
use items::Condition;
use std::io;
use words::{
    call_word, count_loop_word, dual_word, far_word, field_word, jump_word, long_word, memory_word,
    mode_word, modify_word, move_word, near_word, post_word, pre_word, register_loop_word,
    store_word, transfer_word,
};

// The word of a multifunction with these fields.
fn multi_word(opcode: u8, product: u8, alu: u8, x: u8, y: u8, alu_x: u8, alu_y: u8) -> u64 {
    field_word(computes::multi_field(opcode, product, alu, x, y, alu_x, alu_y) as u32)
}

fn single(rt: &HostRuntime) -> io::Result<()> {
    let words = [
        compute_word(0, 0, 0, 0, 0),
        compute_word(3, 0, 0, 0, 0),
        compute_word(0, 0xff, 0, 0, 0),
        compute_word(0, 0, 15, 0, 0),
        compute_word(0, 0, 0, 15, 0),
        compute_word(0, 0, 0, 0, 15),
    ];
    listed(rt, "single", 12, &words)
}

fn multi(rt: &HostRuntime) -> io::Result<()> {
    let words = [
        multi_word(0, 0, 0, 0, 0, 0, 0),
        multi_word(0x3f, 0, 0, 0, 0, 0, 0),
        multi_word(0, 15, 0, 0, 0, 0, 0),
        multi_word(0, 0, 15, 0, 0, 0, 0),
        multi_word(0, 0, 0, 3, 0, 0, 0),
        multi_word(0, 0, 0, 0, 3, 0, 0),
        multi_word(0, 0, 0, 0, 0, 3, 0),
        multi_word(0, 0, 0, 0, 0, 0, 3),
    ];
    listed(rt, "multi", 12, &words)
}

fn long17a(rt: &HostRuntime) -> io::Result<()> {
    let words = [
        long_word(0, 0, 0),
        long_word(0xff, 0, 0),
        long_word(0, 0x7f, 0),
        long_word(0, 0, 0xffff_ffff),
    ];
    listed(rt, "long17a", 12, &words)
}

fn move5a(rt: &HostRuntime) -> io::Result<()> {
    let words = [
        move_word(0, 0),
        move_word(0, 0x7c),
        move_word(0, 2),
        move_word(0, 1),
        move_word(0x7f, 0),
    ];
    listed(rt, "move5a", 12, &words)
}

fn modify19a(rt: &HostRuntime) -> io::Result<()> {
    let words = [
        modify_word(0, 0),
        modify_word(8, 0),
        modify_word(7, 0),
        modify_word(0, 0xffff_ffff),
    ];
    listed(rt, "modify19a", 12, &words)
}

fn offset15a(rt: &HostRuntime) -> io::Result<()> {
    let words = [
        far_word(0, 0, 0, false),
        far_word(0, 7, 0, false),
        far_word(0, 0, 0, true),
        far_word(0x7f, 0, 0, false),
        far_word(0, 0, 0xffff_ffff, false),
    ];
    listed(rt, "offset15a", 12, &words)
}

fn jump8a(rt: &HostRuntime) -> io::Result<()> {
    let words = [
        jump_word(Condition::Eq, false, 0),
        jump_word(Condition::Always, false, 0),
        jump_word(Condition::Eq, true, 0),
        jump_word(Condition::Eq, false, 0xff_ffff),
    ];
    listed(rt, "jump8a", 12, &words)
}

fn call25a(rt: &HostRuntime) -> io::Result<()> {
    let words = [call_word(0), call_word(0xff_ffff)];
    listed(rt, "call25a", 12, &words)
}

fn store16a(rt: &HostRuntime) -> io::Result<()> {
    let words = [
        store_word(0, 0, false, 0),
        store_word(7, 0, false, 0),
        store_word(0, 7, false, 0),
        store_word(0, 0, true, 0),
        store_word(0, 0, false, 0xffff_ffff),
    ];
    listed(rt, "store16a", 12, &words)
}

fn mode18a(rt: &HostRuntime) -> io::Result<()> {
    let words = [
        mode_word(false, 0),
        mode_word(true, 0),
        mode_word(false, 0xffff_ffff),
    ];
    listed(rt, "mode18a", 12, &words)
}

fn dual1a(rt: &HostRuntime) -> io::Result<()> {
    let words = [
        dual_word(false, 0, 0, false, 0, 0, 0, 0, 0),
        dual_word(true, 0, 0, false, 0, 0, 0, 0, 0),
        dual_word(false, 7, 0, false, 0, 0, 0, 0, 0),
        dual_word(false, 0, 7, false, 0, 0, 0, 0, 0),
        dual_word(false, 0, 0, true, 0, 0, 0, 0, 0),
        dual_word(false, 0, 0, false, 15, 0, 0, 0, 0),
        dual_word(false, 0, 0, false, 0, 7, 0, 0, 0),
        dual_word(false, 0, 0, false, 0, 0, 7, 0, 0),
        dual_word(false, 0, 0, false, 0, 0, 0, 15, 0),
        dual_word(false, 0, 0, false, 0, 0, 0, 0, 0x7f_ffff),
    ];
    listed(rt, "dual1a", 12, &words)
}

fn memory3a(rt: &HostRuntime) -> io::Result<()> {
    let words = [
        memory_word(false, 0, 0, false, false, 0, 0),
        memory_word(true, 0, 0, false, false, 0, 0),
        memory_word(false, 7, 0, false, false, 0, 0),
        memory_word(false, 0, 7, false, false, 0, 0),
        memory_word(false, 0, 0, true, false, 0, 0),
        memory_word(false, 0, 0, false, true, 0, 0),
        memory_word(false, 0, 0, false, false, 0x7f, 0),
        memory_word(false, 0, 0, false, false, 0, 0x7f_ffff),
    ];
    listed(rt, "memory3a", 12, &words)
}

fn loop12a(rt: &HostRuntime) -> io::Result<()> {
    let words = [
        count_loop_word(0, false, 0),
        count_loop_word(0xffff, false, 0),
        count_loop_word(0, true, 0),
        count_loop_word(0, false, 0x7f_ffff),
    ];
    listed(rt, "loop12a", 12, &words)
}

fn register_loop12a(rt: &HostRuntime) -> io::Result<()> {
    let words = [
        register_loop_word(0, false, 0),
        register_loop_word(0x7f, false, 0),
        register_loop_word(0, true, 0),
        register_loop_word(0, false, 0x7f_ffff),
    ];
    listed(rt, "registerLoop12a", 12, &words)
}

fn transfer5b(rt: &HostRuntime) -> io::Result<()> {
    let words = [
        transfer_word(0, 0),
        transfer_word(0, 0x7c),
        transfer_word(0, 2),
        transfer_word(0, 1),
        transfer_word(0x7f, 0),
    ];
    listed(rt, "transfer5b", 8, &words)
}

fn modify3b(rt: &HostRuntime) -> io::Result<()> {
    let words = [
        pre_word(0, 0, 0, false),
        pre_word(0, 7, 0, false),
        pre_word(0, 0, 7, false),
        pre_word(0, 0, 0, true),
        pre_word(0x7f, 0, 0, false),
    ];
    listed(rt, "modify3b", 8, &words)
}

fn offset15b(rt: &HostRuntime) -> io::Result<()> {
    let words = [
        near_word(0, 0, 0, false),
        near_word(0, 7, 0, false),
        near_word(0, 0, 0, true),
        near_word(0x7f, 0, 0, false),
        near_word(0, 0, 0x7f, false),
    ];
    listed(rt, "offset15b", 8, &words)
}

fn modify3c(rt: &HostRuntime) -> io::Result<()> {
    let words = [
        post_word(0, 0, 0, false),
        post_word(0, 7, 0, false),
        post_word(0, 0, 7, false),
        post_word(0, 0, 0, true),
        post_word(15, 0, 0, false),
    ];
    listed(rt, "modify3c", 4, &words)
}

// Every form: its name, its word with every field zero, then with each field in turn all ones, from high to low.
pub fn all(rt: &HostRuntime) -> io::Result<()> {
    single(rt)?;
    multi(rt)?;
    long17a(rt)?;
    move5a(rt)?;
    modify19a(rt)?;
    offset15a(rt)?;
    jump8a(rt)?;
    call25a(rt)?;
    store16a(rt)?;
    mode18a(rt)?;
    dual1a(rt)?;
    memory3a(rt)?;
    loop12a(rt)?;
    register_loop12a(rt)?;
    transfer5b(rt)?;
    modify3b(rt)?;
    offset15b(rt)?;
    modify3c(rt)
}
