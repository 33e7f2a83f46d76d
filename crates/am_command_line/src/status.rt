//! How a run of the program ends.

ghost use Rattle.std.specs.Prelude.{◌≡◌};
ghost use Rattle.am_command_line.specs.Statuses.{exit_status_of, reason_of};

/// How a run ends.
#[derive(Clone, Copy, Debug, PartialEq, Eq)]
pub enum Status {
    /// The script was run. Calls may have been refused, but none for being out of memory.
    Done,
    /// The arguments of the command line were refused, and nothing was run.
    BadArguments,
    /// The script was refused, and nothing was run.
    Refused,
    /// The script was run and all of its answers printed; some call was out of memory.
    CallOutOfMemory,
    /// The program itself ran out of memory. Nothing was printed.
    OutOfMemory,
    /// The system started too few threads. Nothing was run and nothing printed.
    NoThread,
    /// The script could not be read. Nothing was run and nothing printed.
    ReadFailed,
    /// The output could not be written whole.
    WriteFailed,
}

impl Status {
    /// The program's exit status: 0 done, 1 bad arguments, 2 refused, 3 a failure.
    pub fn exit_status(self) -> u8
        ensures { result ≡ exit_status_of self }
    {
        match self {
            Status::Done => 0,
            Status::BadArguments => 1,
            Status::Refused => 2,
            Status::CallOutOfMemory
            | Status::OutOfMemory
            | Status::NoThread
            | Status::ReadFailed
            | Status::WriteFailed => 3,
        }
    }

    /// What is written to the error stream of a run that failed or wasn't begun; nothing of another one,
    /// whose output says all. Of a script that was refused more is written there, by
    /// `am_script::script_advice`.
    pub fn reason(self) -> &'static str
        ensures { result.now ≡ reason_of self }
    {
        match self {
            Status::Done | Status::Refused => "",
            Status::BadArguments =>
                "replay: nothing was run: the arguments are wrong, or ask for help\n",
            Status::CallOutOfMemory => "replay: a call was out of memory, as its line says\n",
            Status::OutOfMemory => "replay: out of memory\n",
            Status::NoThread => "replay: a thread could not be started\n",
            Status::ReadFailed => "replay: the script could not be read\n",
            Status::WriteFailed => "replay: the output could not be written\n",
        }
    }
}
