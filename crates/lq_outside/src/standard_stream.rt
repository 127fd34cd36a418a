use std::io::{self, Stderr, Stdout, Write};

/// The standard output or the standard error, as one type of writer.
#[derive(Clone, Copy)]
pub enum StandardStream {
    Output(Stdout),
    Errors(Stderr),
}

impl Write for StandardStream {
    fn write(&mut self, buf: &[u8]) -> io::Result<usize> {
        match self {
            StandardStream::Output(stream) => stream.write(buf),
            StandardStream::Errors(stream) => stream.write(buf),
        }
    }

    fn flush(&mut self) -> io::Result<()> {
        match self {
            StandardStream::Output(stream) => stream.flush(),
            StandardStream::Errors(stream) => stream.flush(),
        }
    }
}
