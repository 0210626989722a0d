// Reads and saves files of the folder that it runs in, as the programs do, and prints what came of it, each under a line that names the case.
// After most files that are saved, or not, it shows the file, or whether a new file was left beside it.
#![tactic(auto)]

use std::fs;
use std::os::unix::fs::PermissionsExt;

// One byte more than a file may have here.
const ROOM: usize = 9;

fn say(rt: &HostRuntime, text: &[u8]) {
    files::print(rt, text);
}

// What a file holds, or that it is not to be had: it is missing, cannot be read, or is too long.
fn show(rt: &HostRuntime, title: &[u8], name: &[u8]) {
    let mut buffer = [0u8; ROOM];
    let end = files::read_named(rt, name, &mut buffer);
    say(rt, title);
    if end == ROOM {
        say(rt, b"not to be had\n");
        return;
    }
    say(rt, b"<");
    say(rt, &buffer[0..end]);
    say(rt, b">\n");
}

fn reads(rt: &HostRuntime) {
    show(rt, b"read: an empty file\n", b"empty");
    show(rt, b"read: eight bytes\n", b"eight");
    show(rt, b"read: nine bytes\n", b"nine");
    show(rt, b"read: ten bytes\n", b"ten");
    show(rt, b"read: no file\n", b"none");
    show(rt, b"read: a folder\n", b"folder");
    show(rt, b"read: a name with a byte 0\n", b"eig\0ht");
}

fn save(rt: &HostRuntime, title: &[u8], name: &[u8], bytes: &[u8]) {
    say(rt, title);
    if files::save(rt, name, bytes) {
        say(rt, b"saved\n");
    } else {
        say(rt, b"not saved\n");
    }
}

fn saves(rt: &HostRuntime) {
    save(rt, b"save: a file that is not there\n", b"made", b"first");
    show(rt, b"the file\n", b"made");
    show(rt, b"beside it\n", b"made.new-000");
    save(rt, b"save: the same, shorter\n", b"made", b"2nd");
    show(rt, b"the file\n", b"made");
    show(rt, b"beside it\n", b"made.new-000");
    save(rt, b"save: the same, empty\n", b"made", b"");
    show(rt, b"the file\n", b"made");
}

fn hindered_saves(rt: &HostRuntime) {
    save(
        rt,
        b"save: where another new file lies beside it\n",
        b"kept",
        b"new",
    );
    show(rt, b"the file\n", b"kept");
    show(rt, b"that other new file\n", b"kept.new-000");
    show(rt, b"the next name\n", b"kept.new-001");
    save(rt, b"save: over a folder\n", b"folder", b"new");
    show(rt, b"beside it\n", b"folder.new-000");
    save(
        rt,
        b"save: in a folder that is not there\n",
        b"none/made",
        b"new",
    );
    save(rt, b"save: a name of no bytes\n", b"", b"new");
    show(rt, b"beside it\n", b".new-000");
    save(
        rt,
        b"save: over a file as if it were a folder\n",
        b"eight/made",
        b"new",
    );
    show(rt, b"that file\n", b"eight");
}

// Takes the right to write a file from everybody. The gate runs this program as a user whom that hinders.
fn protect(rt: &HostRuntime, name: &str) {
    let read_only = fs::Permissions::from_mode(0o444);
    if fs::set_permissions(rt, name, read_only).is_err() {
        say(rt, b"not protected\n");
    }
}

fn protected_save(rt: &HostRuntime) {
    save(rt, b"save: a file to protect\n", b"marked", b"first");
    protect(rt, "marked");
    save(rt, b"save: over it\n", b"marked", b"2nd");
    show(rt, b"the file\n", b"marked");
    show(rt, b"beside it\n", b"marked.new-000");
}

fn main(rt: HostRuntime) {
    reads(&rt);
    saves(&rt);
    hindered_saves(&rt);
    protected_save(&rt);
}
