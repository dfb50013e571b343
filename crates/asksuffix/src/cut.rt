// What standard error is told where the end of the stream cuts a host short, as it does for whoever types a name as a line.

// Of what is left of the stream behind so many hosts; where nothing is left, nothing is said.
pub fn say_cut(rt: &impl Eprint, held: &[u8], hosts: u64) {
    if held.is_empty() {
        return;
    }
    let _ = eprintln!(rt;
        "asksuffix: the stream ends within a host, after {hosts} that were whole"
    );
    // how long it was to be, and how much of it came
    if let [high, low, part @ ..] = held {
        let size = u16::from_be_bytes([*high, *low]);
        let came = part.len();
        let _ = eprintln!(rt;
            "asksuffix: its first two bytes, hex {size:04x}, ask for {size} more; {came} came"
        );
    } else {
        let _ = rt.eprintln("asksuffix: it has one byte, and its length takes two");
    }
    let wanted = "asksuffix: a host is no line of text: 2 bytes, big-endian, say how many
asksuffix: bytes follow, as in printf '\\0\\11www.a.com' | asksuffix
";
    let _ = rt.eprint(wanted);
}
