//! Files of a desk's folder.
ghost use Rattle.std.specs.Prelude.{IfErr, IfOk, Some};
ghost use Rattle.desk_outside.specs.Calls.{Adds, Looked, Opened};
ghost use Rattle.desk_around.specs.Ends.{IsCause};
ghost use Rattle.desk_steps.specs.Files.{MakesFile};
ghost use Rattle.desk_steps.specs.Folder.{FolderStepsOn, IsNext};

use desk_around::Trouble;
use desk_outside::{DeskFile, Folder};

/// Whether the file is there.
#[tactic(auto, using(crate::proofs::StepLaws::on_gentle))]
pub fn is_there<'a, F: Folder>(folder: &mut F, file: DeskFile) -> Result<bool, Trouble<'a>>
    ensures looked { IfOk result (λ there. Adds (F.calls folder.old) (F.calls folder.new) (Looked file (Some there))) }
    ensures cause { IfErr result IsCause }
    ensures steps { FolderStepsOn F.File.disk F.File.Counted.seen (F.calls folder.old) (F.calls folder.new) }
{
    match folder.is_there(file) {
        Ok(there) => Ok(there),
        Err(fault) => Err(Trouble::File(file, fault)),
    }
}

/// The file as a disk, which is empty where there was none.
#[tactic(auto, using(crate::proofs::StepLaws::on_gentle))]
pub fn open_file<'a, F: Folder>(folder: &mut F, file: DeskFile) -> Result<F::File, Trouble<'a>>
    ensures opened { IfOk result (λ disk. Adds (F.calls folder.old) (F.calls folder.new) (Opened file (Some disk))) }
    ensures cause { IfErr result IsCause }
    ensures steps { FolderStepsOn F.File.disk F.File.Counted.seen (F.calls folder.old) (F.calls folder.new) }
{
    match folder.open(file) {
        Ok(disk) => Ok(disk),
        Err(_) => Err(Trouble::Folder),
    }
}

/// An empty file for what is to be put in the place of another one. What was left there goes, for nothing
/// went out of it.
#[tactic(auto, using(crate::proofs::StepLaws::on_gentle))]
pub fn empty_file<'a, F: Folder>(folder: &mut F, next: DeskFile) -> Result<F::File, Trouble<'a>>
    requires next { IsNext next }
    ensures made { IfOk result (λ disk. MakesFile next disk (F.calls folder.old) (F.calls folder.new)) }
    ensures cause { IfErr result IsCause }
    ensures steps { FolderStepsOn F.File.disk F.File.Counted.seen (F.calls folder.old) (F.calls folder.new) }
{
    if folder.remove(next).is_err() {
        return Err(Trouble::Folder);
    }
    open_file(folder, next)
}
