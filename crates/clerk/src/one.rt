// The commands for one file: a page that is listed, shown or checked, and a bitmap that is written as a page.
use crate::options::{Command, Options};
use crate::say::{Failed, Status};
use crate::write::Coding;
use crate::{check, files, lines, list, options, picture, reading, room, say, write};
use settings::{DecodeSettings, EncodingMode};

// A fax page is 1,728 pixels wide (T.4, 2.1).
const USUAL_WIDTH: u32 = 1728;

fn listed(
    rt: &HostRuntime,
    src: &[u8],
    settings: DecodeSettings,
    name: &[u8],
    out: &mut [u8],
) -> Result<Status, Failed> {
    let mut first = room::line();
    let mut second = room::line();
    let (end, written) = list::page(rt, src, settings, &mut first, &mut second, out);
    let told = say::told(rt, written);
    reading::hint(rt, src, settings, end.number, end.place, name);
    told?;
    Ok(Status::Well)
}

fn shown(
    rt: &HostRuntime,
    src: &[u8],
    settings: DecodeSettings,
    marks: bool,
    name: &[u8],
    out: &mut [u8],
) -> Result<Status, Failed> {
    let mut first = room::line();
    let mut second = room::line();
    picture::page(rt, src, settings, marks, name, &mut first, &mut second, out)
}

// What a command answers of a page.
fn of_page(
    rt: &HostRuntime,
    command: Command,
    src: &[u8],
    settings: DecodeSettings,
    marks: bool,
    name: &[u8],
    changes: &mut [u32],
    out: &mut [u8],
) -> Result<Status, Failed> {
    match command {
        Command::List => listed(rt, src, settings, name, out),
        Command::Picture => shown(rt, src, settings, marks, name, out),
        _ => check::page(rt, src, settings, name, changes, out),
    }
}

// Where the bytes of the file end, or a message.
fn read(rt: &HostRuntime, name: &[u8], input: &mut [u8]) -> Result<usize, Failed> {
    files::read(rt, name, input, 0).map_err(|fault| say::complain_of_file(rt, name, fault))
}

// The place of the one file among the words.
fn one_file(rt: &HostRuntime, o: Options, command: &[u8]) -> Result<usize, Failed> {
    match o.file {
        Some(at) if !o.has_more => Ok(at),
        Some(_) => Err(say::complain_of(rt, b"", command, b" takes one file")),
        None => {
            let words = b" needs a file: ./fax help ";
            Err(say::complain_of_two(rt, b"", command, words, command, b""))
        }
    }
}

// A page, by its name; not compiled into its caller (main.rt, answered).
#[inline(never)]
pub(crate) fn page(
    rt: &HostRuntime,
    command: Command,
    o: Options,
    word: &[u8],
    input: &mut [u8],
    changes: &mut [u32],
    out: &mut [u8],
) -> Result<Status, Failed> {
    let at = one_file(rt, o, word)?;
    let mut name = room::word();
    let n = options::copy_word(rt, at, &mut name);
    let Some(settings) = reading::settle(o, &name[..n], USUAL_WIDTH) else {
        return Err(say::complain_of(
            rt,
            b"--encoding is missing, and the name '",
            &name[..n],
            b"' does not say it",
        ));
    };
    let bytes = read(rt, &name[..n], input)?;
    of_page(
        rt,
        command,
        lines::front(input, bytes),
        settings,
        o.marks,
        &name[..n],
        changes,
        out,
    )
}

// Fill and missing EOLs are for 1D pages, K for 2D ones.
fn fitting(rt: &HostRuntime, o: Options) -> Result<Coding, Failed> {
    let Some(encoding) = o.encoding else {
        return Err(say::complain(rt, b"--encoding is missing"));
    };
    let is_1d = matches!(encoding, EncodingMode::Group3_1D);
    if !is_1d && o.fill.is_some() {
        return Err(say::complain(rt, b"--fill is for --encoding g31d"));
    }
    if !is_1d && o.no_eols {
        return Err(say::complain(rt, b"--no-eols is for --encoding g31d"));
    }
    if !matches!(encoding, EncodingMode::Group3_2D) && o.k.is_some() {
        return Err(say::complain(rt, b"--k is for --encoding g32d"));
    }
    Ok(Coding {
        encoding,
        fill: o.fill.unwrap_or(0),
        eols: !o.no_eols,
        k: o.k.unwrap_or(4),
    })
}

fn written(
    rt: &HostRuntime,
    coding: Coding,
    src: &[u8],
    changes: &mut [u32],
    out: &mut [u8],
) -> Result<Status, Failed> {
    let mut ends = room::ends();
    let mut first = room::line();
    let mut second = room::line();
    write::page(
        rt,
        src,
        coding,
        changes,
        &mut ends,
        &mut first,
        &mut second,
        out,
    )
}

// A bitmap, by its name; not compiled into its caller (main.rt, answered).
#[inline(never)]
pub(crate) fn bitmap(
    rt: &HostRuntime,
    o: Options,
    word: &[u8],
    input: &mut [u8],
    changes: &mut [u32],
    out: &mut [u8],
) -> Result<Status, Failed> {
    let at = one_file(rt, o, word)?;
    let coding = fitting(rt, o)?;
    let mut name = room::word();
    let n = options::copy_word(rt, at, &mut name);
    let bytes = read(rt, &name[..n], input)?;
    written(rt, coding, lines::front(input, bytes), changes, out)
}
