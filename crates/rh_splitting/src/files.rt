//! The key files of a list that is split, in folders of the current one.

ghost use Rattle.std.specs.Prelude.{◌≤◌, IfErr, length};
ghost use Rattle.rh_splitting.specs.IntoFiles.{IsOfFiles};

use crate::fault::FilesFault;
use crate::part::Part;
use crate::source::{Source, split_source, try_source};
use rh_bytes::Counted;
use rh_key_files::write_header;
use rh_shelf::create_beside;
use std::alloc::Global;
use std::fs::{self, Files, OpenFile};
use std::io::{self, BufWriter, ErrorKind, Read, Seek, SeekFrom, Write};

/// What Linux says where the program has as many open files as it may (`EMFILE`). Std has no kind
/// of error for that.
const TOO_MANY_OPEN: i32 = 24;

/// Where the key file of a part is written, and where it stands in the end.
#[derive(Drop)]
struct PartFile {
    beside: String,
    place: String,
}

/// The key files of a list that is split: part 7 of the list NAME takes the place `007/NAME.keys`.
/// Each is written beside its place, and takes it once all are whole. Each stays open to the end,
/// so that there is one pass. A rename that fails is rare: what the others replaced is gone then,
/// as to keep it each old file would need a name of its own.
#[derive(Drop)]
pub struct PartFiles<'a, F> {
    files: &'a F,
    made: Vec<PartFile>,
    /// How many of them are whole, with their header, and on the disk.
    whole: u64,
    /// How many of them stand at their places.
    placed: u64,
    ghost in_turn: { placed ≤ whole },
    ghost of_those: { whole ≤ length made.items },
}

impl<'a, F> PartFiles<'a, F> {
    ghost use Rattle.rh_splitting.specs.Files.{HasPlaced};

    /// No file was made yet.
    pub fn new(alloc: Global, files: &'a F) -> PartFiles<'a, F>
        ensures { HasPlaced result 0 }
    {
        PartFiles {
            files,
            made: Vec::new(alloc),
            whole: 0,
            placed: 0,
        }
    }
}

impl<F: Files> PartFiles<'_, F> {
    ghost use Rattle.std.specs.Prelude.{◌≡◌, ◌≤◌, ◌<◌, ◌+◌, length, true};
    ghost use Rattle.std.specs.Prelude.{All, IfErr, IfOk, OnErr, OnOk};
    ghost use Rattle.rh_bytes.specs.Counting.{inner_of};
    ghost use Rattle.rh_parts.specs.declared.part.TheConstants.{MAX_PARTS};
    ghost use Rattle.rh_splitting.specs.IntoFiles.{IsOfWriting};
    ghost use Rattle.rh_splitting.specs.IntoFiles.{SplitsList, told_of_list};
    ghost use Rattle.rh_splitting.specs.Files.{HasPlaced, MakesFiles, made_of, placed_of, whole_of};
    ghost use Rattle.rh_splitting.specs.Name.{is_name};
    ghost use Rattle.rh_splitting.specs.Parts.{IsBegun};
    ghost use Rattle.rh_splitting.specs.Splitting.{ReadsSource};

    /// Splits what the reader gives into so many parts, and writes the key file of each.
    ///
    /// Each part has an open file and a buffer of 8,192 bytes. On a fault none of the files is
    /// left, as far as the system removes them; folders that were made stay.
    pub fn split<R: Read>(
        &mut self,
        alloc: Global,
        reader: &mut Counted<R>,
        source: Source,
        count: u64,
        name: &str,
    ) -> Result<(), FilesFault>
        requires some { 0 < count }
        requires few { count ≤ MAX_PARTS }
        requires none { made_of self.old ≡ 0 }
        requires name { is_name name.now ≡ true }
        ensures split { SplitsList source (R.remaining (inner_of reader.old))
            (R.remaining (inner_of reader.new)) count result }
        ensures reads { ReadsSource R.remaining source reader.old reader.new (told_of_list result) }
        ensures placed { OnOk result (HasPlaced self.new count) }
        ensures none_left { OnErr result (made_of self.new ≡ 0) }
    {
        let outcome = self.write_whole(alloc, reader, source, count, name);
        if outcome.is_err() {
            self.remove_all();
        }
        outcome
    }

    fn write_whole<R: Read>(
        &mut self,
        alloc: Global,
        reader: &mut Counted<R>,
        source: Source,
        count: u64,
        name: &str,
    ) -> Result<(), FilesFault>
        requires some { 0 < count }
        requires few { count ≤ MAX_PARTS }
        requires none { made_of self.old ≡ 0 }
        ensures split { SplitsList source (R.remaining (inner_of reader.old))
            (R.remaining (inner_of reader.new)) count result }
        ensures reads { ReadsSource R.remaining source reader.old reader.new (told_of_list result) }
        ensures placed { OnOk result (HasPlaced self.new count) }
    {
        // Where nothing can be read, no file and no folder is made.
        try_source(reader, source)?;
        let mut parts = self.begin_all(alloc, count, name)?;
        split_source(alloc, reader, source, &mut parts)?;
        self.end_all(parts)?;
        self.place_all()
    }

    /// Makes the files of all parts.
    fn begin_all(&mut self, alloc: Global, count: u64, name: &str) -> Result<Parts<F>, FilesFault>
        requires { made_of self.old ≡ 0 }
        ensures makes { MakesFiles count self.old self.new result }
        ensures parts { IfOk result (λ parts. length parts.items ≡ count) }
        ensures begun { IfOk result (λ parts. All IsBegun parts.items) }
    {
        let mut parts = Vec::new(alloc);
        for number in 0..count {
            let part = self.begin(alloc, number, name)?;
            let Ok(()) = parts.push(part) else {
                return Err(FilesFault::Memory);
            };
        }
        Ok(parts)
    }

    /// Makes the file of a part, and the part that is written to it.
    fn begin(
        &mut self,
        alloc: Global,
        number: u64,
        name: &str,
    ) -> Result<Part<BufWriter<F::File>>, FilesFault>
        ensures makes { MakesFiles 1 self.old self.new result }
        ensures begun { IfOk result IsBegun }
    {
        let file = self.create(alloc, number, name)?;
        let Ok(writer) = BufWriter::new(alloc, file) else {
            return Err(FilesFault::Memory);
        };
        match Part::begin(writer) {
            Ok(part) => Ok(part),
            Err(_) => Err(FilesFault::Write { part: number }),
        }
    }

    /// Writes out what the parts still hold, and the header of each, from the last one on.
    fn end_all(&mut self, mut parts: Parts<F>) -> Result<(), FilesFault>
        requires { whole_of self.old + length parts.items ≤ made_of self.old }
        ensures made { made_of self.new ≡ made_of self.old }
        ensures whole { OnOk result (whole_of self.new ≡ whole_of self.old + length parts.items) }
        ensures placed { placed_of self.new ≡ placed_of self.old }
        ensures fault { IfErr result IsOfWriting }
    {
        while let Some(part) = parts.pop() {
            if end(part).is_err() {
                let part = parts.len() as u64;
                return Err(FilesFault::Write { part });
            }
            self.whole += 1;
        }
        Ok(())
    }

    /// Makes the file of a part, beside its place, and its folder where that is not there.
    fn create(&mut self, alloc: Global, part: u64, name: &str) -> Result<F::File, FilesFault>
        ensures { MakesFiles 1 self.old self.new result }
    {
        make_folder(alloc, self.files, part)?;
        // What was made is always noted: there is room for it before.
        let Ok(()) = self.made.reserve(1) else {
            return Err(FilesFault::Memory);
        };
        let Ok(place) = format!(in alloc; "{part:03}/{name}.keys") else {
            return Err(FilesFault::Memory);
        };
        match create_beside(alloc, self.files, &place) {
            Ok((file, beside)) => self.note(PartFile { beside, place }, file),
            Err(error) => Err(creation_fault(&error, part)),
        }
    }

    /// Notes that the file was made, and gives it back.
    fn note(&mut self, named: PartFile, file: F::File) -> Result<F::File, FilesFault>
        ensures { MakesFiles 1 self.old self.new result }
    {
        match self.made.push(named) {
            Ok(()) => Ok(file),
            Err(_) => Err(FilesFault::Memory),
        }
    }

    /// Puts each file at its place, once all are whole.
    fn place_all(&mut self) -> Result<(), FilesFault>
        requires whole { whole_of self.old ≡ made_of self.old }
        requires none { placed_of self.old ≡ 0 }
        ensures made { made_of self.new ≡ made_of self.old }
        ensures whole { whole_of self.new ≡ whole_of self.old }
        ensures placed { OnOk result (placed_of self.new ≡ made_of self.new) }
        ensures fault { IfErr result IsOfWriting }
    {
        let mut part = 0;
        for file in &self.made {
            if fs::rename(self.files, &file.beside, &file.place).is_err() {
                self.placed = part;
                return Err(FilesFault::Write { part });
            }
            part += 1;
        }
        self.placed = part;
        Ok(())
    }

    /// Removes the files, as far as that can be done.
    fn remove_all(&mut self)
        ensures { made_of self.new ≡ 0 }
    {
        let mut placed = self.placed;
        for file in &self.made {
            let path = if placed > 0 {
                &file.place
            } else {
                &file.beside
            };
            let _ = fs::remove_file(self.files, path);
            placed = placed.saturating_sub(1);
        }
        self.placed = 0;
        self.whole = 0;
        self.made.clear();
    }
}

/// The parts, each with its file behind a buffer.
type Parts<F> = Vec<Part<BufWriter<<F as Files>::File>>>;

/// Makes the folder of a part, where that is not there.
fn make_folder<F: Files>(alloc: Global, files: &F, part: u64) -> Result<(), FilesFault>
    ensures fault { IfErr result IsOfFiles }
{
    let Ok(folder) = format!(in alloc; "{part:03}") else {
        return Err(FilesFault::Memory);
    };
    match fs::create_dir_all(files, &folder) {
        Ok(()) => Ok(()),
        Err(_) => Err(FilesFault::Create { part }),
    }
}

/// Why the file of a part could not be created beside its place.
fn creation_fault(error: &io::Error, part: u64) -> FilesFault
    ensures { IsOfFiles result }
{
    if error.raw_os_error() == Some(TOO_MANY_OPEN) {
        return FilesFault::TooManyOpen { part };
    }
    match error.kind() {
        ErrorKind::OutOfMemory => FilesFault::Memory,
        ErrorKind::AlreadyExists => FilesFault::Left { part },
        _ => FilesFault::Create { part },
    }
}

/// Writes the header where there is room for it. The file is on the disk once this is done.
fn end<T: Write + Seek + OpenFile + Drop>(part: Part<BufWriter<T>>) -> io::Result<()> {
    let count = part.count();
    let mut writer = part.into_writer().into_inner();
    writer.seek(SeekFrom::Start(0))?;
    let mut writer = Counted::new(writer);
    if write_header(count, &mut writer).is_err() {
        return Err(io::Error::from(ErrorKind::WriteZero));
    }
    let mut writer = writer.into_inner();
    writer.flush()?;
    writer.get_ref().sync_all()
}
