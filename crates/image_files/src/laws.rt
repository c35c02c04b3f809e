//! Laws of files in histories of calls: each function's contract states the law, and a call of the function provides it.
ghost use Rattle.image_files.specs.FileLaws.{CallsChangeFiles, HistoriesKeepFiles};

use crate::images::Images;
use block_device::BlockDev;

/// Whatever calls a history has, the effects of its calls on files don't contradict each other: files that change by them exist.
pub fn calls_change_files<D: BlockDev>()
    ensures { CallsChangeFiles D.state }
{}

/// An opener whose values keep files keeps files in each history of its calls.
pub fn histories_keep_files<I: Images>()
    ensures { HistoriesKeepFiles I.relations I.Dev.state }
{}
