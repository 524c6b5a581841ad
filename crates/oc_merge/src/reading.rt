//! Reading of each line, given those before it.

ghost use Rattle.std.specs.Prelude.{◌≡◌, ◌≤◌, ◌∷◌, Ok, Some, OnOk, IfOk, length};
ghost use Rattle.oc_base.specs.Words.{words};
ghost use Rattle.oc_schedule.specs.Lines.{header_without_areas};
ghost use Rattle.oc_merge.specs.declared.fault.Cause.TheVariants.{Said};
ghost use Rattle.oc_merge.specs.declared.fault.RecordsFault.TheVariants.{Line};
ghost use Rattle.oc_merge.specs.declared.fault.TheConstants.{MAX_RECORD_LINES};
ghost use Rattle.oc_merge.specs.declared.place.Place.TheVariants.{Within};
ghost use Rattle.oc_merge.specs.Faults.{fault_at};
ghost use Rattle.oc_merge.specs.Reader.{reading_of};
ghost use Rattle.oc_merge.specs.Reading.{GivesBy, Gives, after_area, after_comment, after_files, after_header, after_inside, after_opening, after_told, after_up, after_words, agreed, at_line, because, begun, has_areas, limited, nodes_of, nothing_read, read_line, read_statement, read_words, records_at_end, started_at, starts, tells, with_areas, with_digits, with_files, within_limits};
ghost use Rattle.oc_merge.specs.Told.{published_in};

use crate::fault::{Cause, MAX_RECORD_PUBLISHED, Most, RecordsFault};
use crate::lines::{files, is_comment, is_cut_off, is_note, told};
use crate::place::Place;
use crate::reader::Reader;
use crate::records::Records;
use crate::told::{Told, ToldLine, published_by};
use oc_base::words::{first_word, is};
use oc_base::{Bytes, Memory, NodeId, Why};
use oc_model::{Header, Sizes};
use oc_schedule::{LineFault, area, node_alone, opening};
use std::alloc::Global;

/// The fault of a line that is refused for a reason which schedules have too.
fn refused(line: u32, why: Why) -> RecordsFault
    ensures { result ≡ Line line (Said why) }
{
    RecordsFault::Line {
        line,
        cause: Cause::Said(why),
    }
}

/// The fault of the text, given the number of a line and its fault.
fn refused_at(line: u32, fault: LineFault) -> RecordsFault
    ensures { result ≡ fault_at line fault }
{
    match fault {
        LineFault::Cause(why) => refused(line, why),
        LineFault::Memory => RecordsFault::Memory,
    }
}

/// How many nodes the network of a header has, or 0 where there is none.
fn nodes_of(header: &Option<Header>) -> u32
    ensures { result ≡ nodes_of header.now }
{
    match header {
        Some(header) => header.sizes.nodes,
        None => 0,
    }
}

/// The header of the network, where a further one has its sizes.
fn agreed(
    alloc: Global,
    number: u32,
    header: Option<Header>,
    sizes: Sizes,
) -> Result<Header, RecordsFault>
    ensures said { Gives result (at_line number (because (agreed header (header_without_areas sizes)))) }
    ensures nodes { IfOk result (λ found. found.nodes ≡ sizes.nodes) }
{
    match header {
        None => Ok(Header {
            sizes,
            areas: vec![in alloc; 0; sizes.nodes as usize]?,
        }),
        Some(first) => {
            let own = first.sizes;
            if own.nodes == sizes.nodes && own.chain == sizes.chain && own.chunk == sizes.chunk {
                Ok(first)
            } else {
                Err(refused(number, Why::Header))
            }
        }
    }
}

/// The header with these areas.
fn with_areas(
    alloc: Global,
    header: Option<Header>,
    areas: &[u8],
) -> Result<Option<Header>, RecordsFault>
    ensures said { Gives result (Ok (with_areas areas.now header)) }
    ensures nodes { IfOk result (λ found. nodes_of found ≡ nodes_of header) }
{
    match header {
        None => Ok(None),
        Some(header) => Ok(Some(Header {
            sizes: header.sizes,
            areas: areas.to_vec(alloc)?,
        })),
    }
}

/// Whether these are the areas of the header.
fn has_areas(header: &Option<Header>, areas: &[u8]) -> bool
    ensures { result ≡ has_areas areas.now header.now }
{
    match header {
        None => false,
        Some(header) => areas == header.areas.as_slice(),
    }
}

/// Adds these digits to the last line, which is a start.
#[tactic(auto, using(crate::proofs::LastLine::files_last, crate::proofs::LastLine::files_published))]
fn put_files(lines: &mut Vec<ToldLine>, digits: Bytes) -> Result<(), Memory>
    ensures files { OnOk result (lines.new.items ≡ with_files digits lines.old.items) }
    ensures published { OnOk result (published_in lines.new.items ≡ published_in lines.old.items) }
{
    match lines.pop() {
        None => Ok(()),
        Some(last) => {
            lines.push(with_told_files(last, digits))?;
            Ok(())
        }
    }
}

/// The line; if it is a start, with the digits of its files.
fn with_told_files(line: ToldLine, digits: Bytes) -> ToldLine
    ensures { result ≡ record line { told = with_digits digits line.told } }
{
    let ToldLine { number, node, told } = line;
    ToldLine {
        number,
        node,
        told: with_digits(told, digits),
    }
}

/// The statement; if it is a start, with the digits of its files.
fn with_digits(told: Told, digits: Bytes) -> Told
    ensures { result ≡ with_digits digits told }
{
    match told {
        Told::Started(_) => Told::Started(Some(digits)),
        other => other,
    }
}

impl Reader {
    /// The state before the first line. Takes no memory.
    pub fn new(alloc: Global) -> Reader
        ensures { reading_of result ≡ nothing_read }
    {
        Reader {
            header: None,
            started: false,
            areas: Vec::new(alloc),
            place: Place::Outside,
            lines: Vec::new(alloc),
            published: 0,
        }
    }

    /// The records of the whole text, given the number of the line after the last.
    pub fn into_records(self, number: u32) -> Result<Records, RecordsFault>
        ensures { Gives result (records_at_end number (reading_of self).header (reading_of self).lines) }
    {
        let Reader { header, lines, .. } = self;
        match header {
            Some(header) => Ok(Records { header, lines }),
            None => Err(refused(number, Why::Header)),
        }
    }

    /// Reads one more line, of this number. A line that is not complete, or was cut off, is
    /// skipped.
    pub fn with_line(
        self,
        alloc: Global,
        number: u32,
        whole: bool,
        line: &[u8],
    ) -> Result<Reader, RecordsFault>
        requires { number ≤ MAX_RECORD_LINES }
        ensures { GivesBy reading_of result (read_line number whole (reading_of self) line.now) }
    {
        if !whole || is_cut_off(line) {
            return Ok(self);
        }
        match first_word(line) {
            None => Ok(self),
            Some((word, fields)) => {
                if is_comment(word) {
                    self.with_comment(alloc, line)
                } else {
                    self.with_statement(alloc, number, line, word, fields)
                }
            }
        }
    }

    /// Reads a comment, which may tell the files of the start before it.
    fn with_comment(self, alloc: Global, line: &[u8]) -> Result<Reader, RecordsFault>
        ensures { GivesBy reading_of result (Ok (after_comment (reading_of self).place (reading_of self) line.now)) }
    {
        let Place::Begun(node) = self.place else {
            return Ok(self);
        };
        match files(alloc, NodeId(node), line)? {
            None => Ok(self),
            Some(digits) => self.with_files(NodeId(node), digits),
        }
    }

    /// Notes that the start in the last line found these files.
    fn with_files(self, node: NodeId, digits: Bytes) -> Result<Reader, RecordsFault>
        ensures { GivesBy reading_of result (Ok (after_files (reading_of self) node (Some digits))) }
    {
        let Reader {
            header,
            started,
            areas,
            place: _,
            mut lines,
            published,
        } = self;
        put_files(&mut lines, digits)?;
        Ok(Reader {
            header,
            started,
            areas,
            place: Place::Within(node.0),
            lines,
            published,
        })
    }

    /// Reads a line that is not skipped, with this word and these fields.
    fn with_statement(
        self,
        alloc: Global,
        number: u32,
        line: &[u8],
        word: &[u8],
        fields: &[u8],
    ) -> Result<Reader, RecordsFault>
        requires { words line.now ≡ word.now ∷ words fields.now }
        ensures { GivesBy reading_of result (read_statement number (reading_of self) word.now (words fields.now)) }
    {
        match self.place {
            Place::Outside => self.with_header(alloc, number, line),
            Place::Opened => self.with_opening(alloc, number, line, word, fields),
            Place::Begun(me) => {
                self.with_inside(alloc, number, NodeId(me), line, (word, fields))
            }
            Place::Within(me) => {
                self.with_inside(alloc, number, NodeId(me), line, (word, fields))
            }
        }
    }

    /// Reads a header line, which opens a record.
    fn with_header(self, alloc: Global, number: u32, line: &[u8]) -> Result<Reader, RecordsFault>
        ensures { GivesBy reading_of result (limited (at_line number (because (after_header (reading_of self) (words line.now))))) }
    {
        let Ok(sizes) = opening(line) else {
            return Err(refused(number, Why::Header));
        };
        let Reader {
            header,
            started,
            areas: _,
            place: _,
            lines,
            published,
        } = self;
        let areas = vec![in alloc; 0; sizes.nodes as usize]?;
        let header = agreed(alloc, number, header, sizes)?;
        Ok(Reader {
            header: Some(header),
            started,
            areas,
            place: Place::Opened,
            lines,
            published,
        })
    }

    /// Reads a line after a header.
    fn with_opening(
        self,
        alloc: Global,
        number: u32,
        line: &[u8],
        word: &[u8],
        fields: &[u8],
    ) -> Result<Reader, RecordsFault>
        requires { words line.now ≡ word.now ∷ words fields.now }
        ensures { GivesBy reading_of result (limited (at_line number (after_opening (reading_of self) number word.now (words fields.now)))) }
    {
        if is(word, "overcast") {
            self.with_header(alloc, number, line)
        } else if is(word, "area") {
            self.with_area(number, fields)
        } else if is(word, "up") {
            self.with_up(alloc, number, fields)
        } else {
            Err(refused(number, Why::Word))
        }
    }

    /// `area N A`
    fn with_area(self, number: u32, fields: &[u8]) -> Result<Reader, RecordsFault>
        ensures { GivesBy reading_of result (limited (at_line number (because (after_area (reading_of self) (words fields.now))))) }
    {
        let (node, area) = match area(nodes_of(&self.header), fields) {
            Ok(found) => found,
            Err(why) => return Err(refused(number, why)),
        };
        let Reader {
            header,
            started,
            mut areas,
            place,
            lines,
            published,
        } = self;
        areas[node.index()] = area;
        Ok(Reader {
            header,
            started,
            areas,
            place,
            lines,
            published,
        })
    }

    /// `up N`
    fn with_up(self, alloc: Global, number: u32, fields: &[u8]) -> Result<Reader, RecordsFault>
        ensures { GivesBy reading_of result (limited (at_line number (after_up (reading_of self) number (words fields.now)))) }
    {
        match node_alone(nodes_of(&self.header), fields) {
            Ok(node) => self.with_start(alloc, number, node),
            Err(why) => Err(refused(number, why)),
        }
    }

    /// Reads the start of a node, in the areas of the first record.
    fn with_start(self, alloc: Global, number: u32, node: NodeId) -> Result<Reader, RecordsFault>
        ensures { GivesBy reading_of result (limited (at_line number (starts (reading_of self) number node))) }
    {
        if !self.started {
            self.with_areas(alloc)?.with_start_of(number, node)
        } else if has_areas(&self.header, &self.areas) {
            self.with_start_of(number, node)
        } else {
            Err(RecordsFault::Line {
                line: number,
                cause: Cause::Areas,
            })
        }
    }

    /// The areas after the last header are those of the header.
    fn with_areas(self, alloc: Global) -> Result<Reader, RecordsFault>
        ensures { GivesBy reading_of result (Ok (begun (reading_of self))) }
    {
        let Reader {
            header,
            started: _,
            areas,
            place,
            lines,
            published,
        } = self;
        let header = with_areas(alloc, header, &areas)?;
        Ok(Reader {
            header,
            started: true,
            areas,
            place,
            lines,
            published,
        })
    }

    /// Appends the line of a start.
    fn with_start_of(self, number: u32, node: NodeId) -> Result<Reader, RecordsFault>
        ensures { GivesBy reading_of result (within_limits (started_at (reading_of self) number node)) }
    {
        self.at(Place::Begun(node.0))
            .with_told(number, node, Told::Started(None))
    }

    /// Reads a line in the record of `me`, with this word and these fields.
    fn with_inside(
        self,
        alloc: Global,
        number: u32,
        me: NodeId,
        line: &[u8],
        found: (&[u8], &[u8]),
    ) -> Result<Reader, RecordsFault>
        requires { words line.now ≡ found.0.now ∷ words found.1.now }
        ensures { GivesBy reading_of result (limited (at_line number (because (after_inside (reading_of self) me number found.entry.0.now (words found.entry.1.now))))) }
    {
        let (word, fields) = found;
        if is_note(word) {
            Ok(self.within(me))
        } else if is(word, "overcast") {
            self.with_header(alloc, number, line)
        } else {
            self.with_input(alloc, number, me, word, fields)
        }
    }

    /// Reads a line of a message or of another input of `me`.
    fn with_input(
        self,
        alloc: Global,
        number: u32,
        me: NodeId,
        word: &[u8],
        fields: &[u8],
    ) -> Result<Reader, RecordsFault>
        ensures { GivesBy reading_of result (limited (at_line number (because (after_told (reading_of self) me number word.now (words fields.now))))) }
    {
        match told(alloc, nodes_of(&self.header), me, word, fields) {
            Ok(told) => self.within(me).with_told(number, me, told),
            Err(fault) => Err(refused_at(number, fault)),
        }
    }

    /// Moves into the record of `me`.
    fn within(self, me: NodeId) -> Reader
        ensures { reading_of result ≡ record (reading_of self) { place = Within me } }
    {
        self.at(Place::Within(me.0))
    }

    /// Moves to another place between the lines.
    fn at(self, place: Place) -> Reader
        ensures { reading_of result ≡ record (reading_of self) { place = place } }
    {
        let Reader {
            header,
            started,
            areas,
            place: _,
            lines,
            published,
        } = self;
        Reader {
            header,
            started,
            areas,
            place,
            lines,
            published,
        }
    }

    /// Appends one more statement about the node, if no limit is exceeded.
    fn with_told(self, number: u32, node: NodeId, told: Told) -> Result<Reader, RecordsFault>
        ensures { GivesBy reading_of result (within_limits (tells (reading_of self) number node told)) }
    {
        let Reader {
            header,
            started,
            areas,
            place,
            mut lines,
            published,
        } = self;
        let more = published_by(&told);
        if more > MAX_RECORD_PUBLISHED - published {
            return Err(RecordsFault::Limit(Most::Published));
        }
        lines.push(ToldLine { number, node, told })?;
        Ok(Reader {
            header,
            started,
            areas,
            place,
            lines,
            published: published + more,
        })
    }
}
