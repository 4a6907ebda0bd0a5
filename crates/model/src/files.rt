// What is promised of files, one function a theorem.
ghost use Rattle.model.specs.FilePromises.{FilesWhole, OldOrNew, GetKeepsItsFile, PutsAlone, PutGoesThrough, RefusedLeavesFiles};
ghost use Rattle.model.specs.PutPromises.{StorageIsFiles, EndsWellIfWhole};

// Each name has the file that was put last, whole, and none where none was.
pub fn files_whole()
    ensures { FilesWhole }
{}

// One event, a crash among them, leaves a name its file or gives it the new one.
pub fn old_or_new()
    ensures { OldOrNew }
{}

// A get under way reads the file that held when it began.
pub fn get_keeps_its_file()
    ensures { GetKeepsItsFile }
{}

// The blocks of a put under way are in no record that holds, in no other put and in no get.
pub fn puts_alone()
    ensures { PutsAlone }
{}

// Under any programs of a table, put and get among them, the files are what some list of their own events leads to.
pub fn storage_is_files()
    ensures { StorageIsFiles }
{}

// A put ends with 0 only when all bytes and their digest have come; its name then has them.
pub fn ends_well_if_whole()
    ensures { EndsWellIfWhole }
{}

// A put that could begin and was given all its bytes commits where there is room for its name, which then has exactly these.
pub fn put_goes_through()
    ensures { PutGoesThrough }
{}

// A put that is refused changes nothing.
pub fn refused_leaves_files()
    ensures { RefusedLeavesFiles }
{}
