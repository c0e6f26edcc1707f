//! From a tape's bytes to the answer sheet's bytes: document 01, "The tape and the answer sheet".
#![tactic(auto)]

ghost use Rattle.std.specs.Prelude.{◌≡◌, ◌+◌, ◌*◌, ◌≤◌, ◌<◌, true, false, length, replicate};
ghost use Rattle.std.specs.Prelude.{MatchOption};
ghost use Rattle.manifest.specs.Layout.{u16_at};
ghost use Rattle.state.specs.Tables.{fresh};
ghost use Rattle.state.specs.Stored.{zero_loan, device_of};
ghost use Rattle.history.specs.Tape.{is_tape, actions_place, action_count, handed};
ghost use Rattle.history.specs.Sheet.{field, refused_text, answer_text, line_text, sheet};
ghost use Rattle.history.specs.Run.{monitor_steps, counts_text, run_text};
ghost use Rattle.tape.specs.Written.{Written, SameBuffer};
ghost use Rattle.tape.specs.Reading.{held_by, stepped};
ghost use Rattle.tape.specs.Filled.{wrote, filled, sheet_room};
ghost use Rattle.tape.specs.Ran.{lines_room, lines_of, ran, RanAt};

use itoa::Buffer;
use manifest::Resource;
use monitor::Stepped;
use rules::{Answer, Definition, Done, Instance, Loan, Part};
use state::{App, Device, Instances, Table};

/// The buffer is too short, and nothing is written in it.
#[derive(Clone, Copy, PartialEq, Eq)]
pub struct TooShort;

/// What a run leaves, and how many bytes of the buffer it wrote.
#[derive(Clone, Copy)]
pub struct Ran {
    pub device: Device,
    pub lent: [Loan; 128],
    pub wrote: Result<usize, TooShort>,
}

/// The sheet of a tape, at the front of a lent buffer: how many bytes it has. What stands after it in the buffer stays
/// as it was.
pub fn sheet_of(tape: &[u8], out: &mut [u8]) -> Result<usize, TooShort>
    ensures value { result ≡ wrote (sheet_room tape.now) (sheet tape.now) out.old }
    ensures out_after { out.new
        ≡ filled (sheet_room tape.now) (sheet tape.now) out.old }
{
    let Some(tape) = Tape::read(tape) else {
        return put_refused(out);
    };
    if out.len() < 24 * tape.actions + 98 {
        return Err(TooShort);
    }
    let mut writer = Writer {
        buffer: out,
        end: 0,
    };
    writer.put(b"answers ");
    writer.put_field(tape.actions, b'\n');
    writer.put_run(&tape);
    Ok(writer.end)
}

/// The records of a tape, one after the other at a device and its loan table: the line of each at the front of a lent
/// buffer. Bytes that are no tape, and a buffer that is too short, leave device and table as they are.
// Device and table stand apart, as every caller of the monitor has them.
pub fn run(tape: &[u8], d: Device, lent: [Loan; 128], out: &mut [u8]) -> Ran
    ensures value { result ≡ ran tape.now (held_by d lent) out.old }
    ensures out_after { out.new
        ≡ filled (lines_room tape.now) (lines_of tape.now (held_by d lent)) out.old }
{
    let Some(tape) = Tape::read(tape) else {
        return Ran {
            device: d,
            lent,
            wrote: put_refused(out),
        };
    };
    if out.len() < 24 * tape.actions {
        return Ran {
            device: d,
            lent,
            wrote: Err(TooShort),
        };
    }
    let mut writer = Writer {
        buffer: out,
        end: 0,
    };
    let (device, lent) = writer.put_lines(&tape, d, lent);
    Ran {
        device,
        lent,
        wrote: Ok(writer.end),
    }
}

// ---- reading the tape

// Where both its bytes are known to be there; `number_at` finds that out.
fn u16_at(s: &[u8], at: usize) -> usize
    requires { at + 2 ≤ length s.now }
    ensures { result ≡ u16_at s.now at }
{
    usize::from(u16::from_le_bytes([s[at], s[at + 1]]))
}

// The number at a place, where both its bytes are there.
fn number_at(s: &[u8], at: usize) -> Option<usize>
    ensures { MatchOption result (length s.now < at + 2) (λ n. (n ≡ u16_at s.now at) × (at + 2 ≤ length s.now)) }
{
    let bytes = s.get(at..)?.first_chunk()?;
    Some(usize::from(u16::from_le_bytes(*bytes)))
}

// The bytes of a tape, where its first action record stands, and how many there are.
#[derive(Clone, Copy)]
struct Tape<'a> {
    bytes: &'a [u8],
    records: usize,
    actions: usize,
    ghost good: { is_tape bytes.now ≡ true },
    ghost first: { records ≡ actions_place bytes.now + 2 },
    ghost all: { actions ≡ action_count bytes.now },
    ghost ends: { records + 12 * actions ≡ length bytes.now },
    ghost few: { actions ≤ 2048 },
}

impl<'a> Tape<'a> {
    // A manifest that is cut is found at the number after it.
    fn read(bytes: &'a [u8]) -> Option<Tape<'a>>
        ensures { MatchOption result (is_tape bytes.now ≡ false) (λ tape. tape.bytes.now ≡ bytes.now) }
    {
        let count = usize::from(*bytes.first()?);
        if 32 < count {
            return None;
        }
        let mut at = 1;
        for _passed in 0..count {
            let length = number_at(bytes, at)?;
            if 1024 < length {
                return None;
            }
            at += 2 + length;
        }
        let actions = number_at(bytes, at)?;
        if 2048 < actions {
            return None;
        }
        let records = at + 2;
        if records + 12 * actions == bytes.len() {
            Some(Tape {
                bytes,
                records,
                actions,
            })
        } else {
            None
        }
    }

    // The bytes of manifest k. Past the last manifest there are none.
    fn manifest(&self, k: usize) -> &[u8]
        ensures { result.now ≡ handed self.now.bytes.now k }
    {
        let bytes = self.bytes;
        if usize::from(bytes[0]) <= k {
            return &bytes[..0];
        }
        let mut at = 1;
        for _passed in 0..k {
            at += 2 + u16_at(bytes, at);
        }
        let first = at + 2;
        let last = first + u16_at(bytes, at);
        &bytes[first..last]
    }

    // What the monitor makes of record i: it is handed the record's bytes, and those of the manifest that it names.
    fn step(&self, i: usize, d: Device, lent: [Loan; 128]) -> Stepped
        requires { i < self.now.actions }
        ensures { result ≡ stepped self.now.bytes.now d lent i }
    {
        let from = self.records + 12 * i;
        let to = from + 12;
        let place = u16_at(self.bytes, from + 2);
        monitor::step_table(d, lent, &self.bytes[from..to], self.manifest(place))
    }
}

// ---- writing the sheet

// The one line for bytes that are no tape.
fn put_refused(out: &mut [u8]) -> Result<usize, TooShort>
    ensures value { result ≡ wrote 13 refused_text out.old }
    ensures out_after { out.new ≡ filled 13 refused_text out.old }
{
    if out.len() < 13 {
        return Err(TooShort);
    }
    let mut writer = Writer {
        buffer: out,
        end: 0,
    };
    writer.put(b"tape refused\n");
    Ok(writer.end)
}

// A lent buffer, and where what is written in it ends.
#[derive(Drop)]
struct Writer<'a> {
    buffer: &'a mut [u8],
    end: usize,
}

impl Writer<'_> {
    // The lines of a tape's actions at a fresh device, and the last line.
    fn put_run(&mut self, tape: &Tape)
        requires { self.old.end + 24 * tape.now.actions + 85 ≤ length self.old.buffer.now }
        ensures written { Written self.old.buffer.now self.old.end
            (run_text monitor_steps tape.now.bytes.now tape.now.actions) self.new.buffer.now self.new.end }
        ensures lent { SameBuffer self.old self.new }
        ensures upper_bound { self.new.end ≤ self.old.end + 24 * tape.now.actions + 85 }
    {
        let (d, _lent) = self.put_lines(tape, fresh_device(), zero_loans());
        // A cast, here and in `put_answer`: there is no `From` of a u32 for a usize.
        let running = tables::running_count(d.instances) as usize;
        self.put_counts(d.apps.count, running, d.lent);
    }

    // The lines of a tape's actions at a device and its loan table, and what these are after them.
    fn put_lines(
        &mut self,
        tape: &Tape,
        device: Device,
        table: [Loan; 128],
    ) -> (Device, [Loan; 128])
        requires { self.old.end + 24 * tape.now.actions ≤ length self.old.buffer.now }
        ensures ran_at { RanAt tape.now.bytes.now (held_by device table) self.old.buffer.now self.old.end
            tape.now.actions (held_by result.0 result.1) self.new.buffer.now self.new.end }
        ensures lent { SameBuffer self.old self.new }
        ensures upper_bound { self.new.end ≤ self.old.end + 24 * tape.now.actions }
    {
        let mut d = device;
        let mut lent = table;
        for i in 0..tape.actions {
            let code = tape.bytes[tape.records + 12 * i];
            let next = tape.step(i, d, lent);
            self.put_line(i + 1, code, next.answer);
            d = next.device;
            lent = next.lent;
        }
        (d, lent)
    }

    // The last line: `end apps` and the count, and so on.
    fn put_counts(&mut self, apps: usize, running: usize, lent: usize)
        requires { self.old.end + 85 ≤ length self.old.buffer.now }
        ensures written { Written self.old.buffer.now self.old.end (counts_text apps running lent)
            self.new.buffer.now self.new.end }
        ensures lent { SameBuffer self.old self.new }
        ensures upper_bound { self.new.end ≤ self.old.end + 85 }
    {
        self.put(b"end apps ");
        self.put_field(apps, b' ');
        self.put(b"running ");
        self.put_field(running, b' ');
        self.put(b"lent ");
        self.put_field(lent, b'\n');
    }

    // The line of an action. Its code is the record's byte, which may name no action.
    fn put_line(&mut self, place: usize, code: u8, answer: Answer)
        requires { (place < 10000) × (self.old.end + 24 ≤ length self.old.buffer.now) }
        ensures written { Written self.old.buffer.now self.old.end (line_text place code answer)
            self.new.buffer.now self.new.end }
        ensures lent { SameBuffer self.old self.new }
        ensures upper_bound { self.new.end ≤ self.old.end + 24 }
    {
        self.put_field(place, b' ');
        self.put_field(usize::from(code), b' ');
        self.put_answer(answer);
    }

    // Answer, ground and value, to the line's end.
    fn put_answer(&mut self, answer: Answer)
        requires { self.old.end + 15 ≤ length self.old.buffer.now }
        ensures written { Written self.old.buffer.now self.old.end (answer_text answer)
            self.new.buffer.now self.new.end }
        ensures lent { SameBuffer self.old self.new }
        ensures upper_bound { self.new.end ≤ self.old.end + 15 }
    {
        match answer {
            Ok(Done { ground, value }) => {
                self.put(b"0 ");
                self.put_field(u32::from(ground) as usize, b' ');
                self.put_field(value as usize, b'\n');
            }
            Err(reason) => {
                self.put_field(u32::from(reason) as usize, b' ');
                self.put(b"- -\n");
            }
        }
    }

    // A number in decimal, and the byte after it.
    fn put_field(&mut self, n: usize, ending: u8)
        requires { self.old.end + length (field n ending) ≤ length self.old.buffer.now }
        ensures written { Written self.old.buffer.now self.old.end (field n ending) self.new.buffer.now self.new.end }
        ensures lent { SameBuffer self.old self.new }
    {
        self.put(Buffer::new().format(n).as_bytes());
        self.put(&[ending]);
    }

    // Bytes as they stand.
    fn put(&mut self, bytes: &[u8])
        requires { self.old.end + length bytes.now ≤ length self.old.buffer.now }
        ensures written { Written self.old.buffer.now self.old.end bytes.now self.new.buffer.now self.new.end }
        ensures lent { SameBuffer self.old self.new }
    {
        let start = self.end;
        self.end += bytes.len();
        self.buffer[start..self.end].copy_from_slice(bytes);
    }
}

// ---- the fresh device and the table lent to it: each table is one zero entry, repeated

fn fresh_device() -> Device
    ensures { result ≡ device_of fresh }
{
    Device {
        apps: Table::empty(App::default()),
        definitions: Table::empty(Definition::default()),
        parts: Table::empty(Part::default()),
        resources: Table::empty(Resource::default()),
        instances: Instances {
            list: Table::empty(Instance::default()),
            running: 0,
        },
        lent: 0,
    }
}

// The crate loans, which has such a table too, is none that this one stands on.
fn zero_loans() -> [Loan; 128]
    ensures { result ≡ replicate 128 zero_loan }
{
    [Loan::default(); 128]
}
