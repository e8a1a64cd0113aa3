// Keeps the numbers of the three standard descriptors from going to files and sockets.
use split_base::Failed;
use std::fs::{File, Files, OpenOptions};
use std::os::fd::AsFd;

/// The device that gives readers nothing and takes everything that is written.
const NULL_DEVICE: &str = "/dev/null";

/// The system's number for the fault that a descriptor is not open.
const NOT_OPEN: i32 = 9;

/// Descriptors 0, 1 and 2, which are taken for as long as this lives, by the streams that the program was started with or by the null
/// device.
///
/// A program may be started with some of them closed. The system gives the lowest free number to whatever is opened next, so what is
/// written to the standard output could end up in a file that took its number. That is why a program takes all three before it opens
/// anything else.
#[derive(Drop)]
pub struct StandardDescriptors {
    _input: Option<File>,
    _output: Option<File>,
    _errors: Option<File>,
}

impl StandardDescriptors {
    /// Opens the null device for each of the three streams that is closed.
    ///
    /// What replaces the input is open only for writing, and what replaces an output is open only for reading. So reading from a closed
    /// input fails, and so does writing to a closed output.
    ///
    /// `Failed` means that a stream is closed and the null device can't be opened.
    pub fn take<R: Files<File = File>>(
        files: &R,
        input: &impl AsFd,
        output: &impl AsFd,
        errors: &impl AsFd,
    ) -> Result<Self, Failed> {
        Ok(StandardDescriptors {
            _input: in_place_of(files, input, OpenOptions::new().write(true))?,
            _output: in_place_of(files, output, OpenOptions::new().read(true))?,
            _errors: in_place_of(files, errors, OpenOptions::new().read(true))?,
        })
    }
}

// Opens the null device if the stream is closed. The device gets the lowest free number. That is the stream's, since all lower ones are
// taken by then.
fn in_place_of<R: Files<File = File>>(
    files: &R,
    stream: &impl AsFd,
    options: &OpenOptions,
) -> Result<Option<File>, Failed> {
    if !is_closed(stream) {
        return Ok(None);
    }
    match options.open(files, NULL_DEVICE) {
        Ok(device) => Ok(Some(device)),
        Err(_) => Err(Failed),
    }
}

// Whether the stream is closed: its descriptor can't be copied, since it is not open. A copy may also fail because no number is free, but
// then the stream is open.
fn is_closed(stream: &impl AsFd) -> bool {
    match stream.as_fd().try_clone_to_owned() {
        Ok(_) => false,
        Err(why) => why.raw_os_error() == Some(NOT_OPEN),
    }
}
