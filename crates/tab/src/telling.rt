// What the tool tells on standard error: why a line, a path or a table is not taken, and how it is used.
use tab_assign::RefusedLine;
use tab_escape::Fault;
use tab_pack::BadLine;
use table::Kind;
use text::refusal::Refusal;

pub(crate) fn say(rt: &HostRuntime, text: &[u8]) {
    system::tell(rt, text);
}

// A line without a key: of paths it is empty. Fields have no keys: nothing is said of them.
fn say_no_key(rt: &HostRuntime, kind: Kind) {
    match kind {
        Kind::Variables => say(rt, b": no name before its `=`\n"),
        Kind::Homes => say(rt, b": no login before its `=`\n"),
        Kind::Paths => say(rt, b": an empty line is no path\n"),
        Kind::Fields => {}
    }
}

// Why a line is no record.
fn say_fault(rt: &HostRuntime, kind: Kind, fault: Fault) {
    match fault {
        Fault::NoEquals => say(rt, b": no `=` in it\n"),
        Fault::NoKey => say_no_key(rt, kind),
        Fault::BadEscape => say(rt, b": an unknown escape\n"),
        Fault::ZeroByte => say(rt, b": a zero byte\n"),
        Fault::Twice => say(rt, b": the key of an earlier line\n"),
        Fault::TooLong => say(rt, b": with it the table is too long\n"),
    }
}

// Names a line that is not taken.
fn say_line(rt: &HostRuntime, line: usize) {
    say(rt, b"tab: line ");
    system::tell_decimal(rt, line as u64);
}

// A line that is no record, and why.
pub(crate) fn say_bad_line(rt: &HostRuntime, kind: Kind, bad: BadLine) {
    say_line(rt, bad.line);
    say_fault(rt, kind, bad.fault);
}

// Why an assignment line is refused, and the message that it demands.
pub(crate) fn say_refusal(rt: &HostRuntime, refused: RefusedLine, demanded: &[u8]) {
    say_line(rt, refused.line);
    say(rt, b": refused with ");
    system::tell_decimal(rt, refused.number as u64);
    say(rt, b" at ");
    system::tell_decimal(rt, refused.place as u64);
    if refused.number == Refusal::Demanded.number() {
        say(rt, b": ");
        say(rt, demanded);
    }
    say(rt, b"\n");
}

// Why a path is not inserted, or not deleted.
pub(crate) fn say_not_updated(rt: &HostRuntime, number: u8) {
    say(rt, b"tab: refused with ");
    system::tell_decimal(rt, number as u64);
    say(rt, b"\n");
}

pub(crate) fn usage(rt: &HostRuntime) {
    say(
        rt,
        b"usage: tab show vars|homes|paths|fields < image > text\n",
    );
    say(
        rt,
        b"       tab pack vars|homes|paths|fields < text > image\n",
    );
    say(
        rt,
        b"       tab assign [--shout] [--] [PARAMETER]... < settings.txt > new.tab && mv new.tab vars.tab\n",
    );
    say(
        rt,
        b"       tab insert|delete PATH < paths.tab > new.tab && mv new.tab paths.tab\n",
    );
}
