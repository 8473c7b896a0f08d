//! The arguments of `live`, and how they are read from the words that matched the parser.
use clap::ArgMatches;
use studio_io::LiveOptions;

/// The arguments of `live`.
#[derive(Clone, Copy)]
pub struct LiveArgs<'a> {
    /// The options of the run.
    pub options: LiveOptions,
    /// True if the run uses the sockets that it inherited, as by sd_listen_fds(3).
    pub listen_fds: bool,
    /// True if sockets at groups are bound so that other programs may bind them too.
    pub share_groups: bool,
    /// The offset of International Atomic Time from the system's time of day, if the run opens by that time: a number
    /// of seconds, or `system` for the offset that the system knows. If `None`, the run opens at the configuration's
    /// time.
    pub tai_offset: Option<&'a str>,
    /// The path of the run's record, if one is asked for.
    pub record: Option<&'a str>,
    /// The path of the file with the token of the page's control of gains, if the page is to have it.
    pub control: Option<&'a str>,
    /// The path of the file with the gains with which the run begins, if there is one.
    pub gains: Option<&'a str>,
    /// The path of the file in which the run keeps its gains, if it keeps them.
    pub keep_gains: Option<&'a str>,
    /// The path of the mix's WAV file, if one is asked for.
    pub wav: Option<&'a str>,
    /// The number of minutes after which a new WAV file begins, if the mix is divided. Its files are named by `wav` and
    /// the time.
    pub wav_minutes: Option<u64>,
    /// The path of the mix's raw PCM, if it is asked for; `-` is standard output.
    pub pcm: Option<&'a str>,
}

impl<'a> LiveArgs<'a> {
    /// Returns the arguments of these matches. With `--clock tai` and no `--tai-offset`, the offset is the one that the
    /// system knows.
    pub(crate) fn of(matches: &ArgMatches<'a>) -> LiveArgs<'a> {
        let offset = matches.get_str("tai-offset").unwrap_or("system");
        LiveArgs {
            options: options_of(matches),
            listen_fds: matches.get_flag("listen-fds"),
            share_groups: matches.get_flag("share-groups"),
            tai_offset: matches.get_str("clock").map(|_tai| offset),
            record: matches.get_str("record"),
            control: matches.get_str("control"),
            gains: matches.get_str("gains"),
            keep_gains: matches.get_str("keep-gains"),
            wav: matches.get_str("wav"),
            wav_minutes: matches.get_one::<u64>("wav-minutes"),
            pcm: matches.get_str("pcm"),
        }
    }

    /// Returns true if the raw PCM goes to standard output: its path is `-`.
    pub fn is_pcm_stdout(&self) -> bool {
        match self.pcm {
            Some(path) => path == "-",
            None => false,
        }
    }
}

/// Returns the options of a live run.
fn options_of(matches: &ArgMatches<'_>) -> LiveOptions {
    LiveOptions {
        instants: matches.get_one::<i64>("instants"),
        stats: matches.get_one::<u32>("stats"),
        page: matches.get_one::<u16>("page"),
        until_eof: matches.get_flag("until-eof"),
        one_thread: matches.get_flag("one-thread"),
        yield_seconds: matches.get_one::<u32>("yield").unwrap_or(0),
    }
}
