//! Documents of real shapes: posts, a catalog, coordinates, GeoJSON, tweets, and a settings file with comments.
//!
//! A document is made of items. Each follows a frame, in which a `$` and the sign after it stand for a part that is
//! made anew each time (`Maker::part`). Numbers and words are the same in each run.

use std::alloc::{AllocError, Global};
use std::fmt::Write;

/// What opens a document, the frames of its items, what stands between two items, and what closes it.
#[derive(Clone, Copy, Drop)]
pub(crate) struct Document {
    open: &'static str,
    frames: &'static [&'static str],
    between: &'static str,
    close: &'static str,
}

/// Messages of a network, with their authors; on one line, with letters past ASCII.
pub(crate) const POSTS: Document = Document {
    open: "{\"statuses\": [",
    frames: &[
        r#"{"id": 50587492$8, "id_str": "50587492$8", "created_at": "Sun Aug 31 00:29:15 +0000 2014", "text": "$t$e", "truncated": $b, "lang": "$l", "retweet_count": $2, "favorite_count": $4, "favorited": $b, "retweeted": $b, "source": "<a href=\"http://example.org\">web</a>", "in_reply_to": $n, "user": {"id": $9, "name": "$s", "screen_name": "user$4", "followers_count": $6, "friends_count": $4, "verified": $b, "description": "$t"}, "entities": {"hashtags": [$h], "urls": [], "user_mentions": [$m]}}"#,
    ],
    between: ", ",
    close: "]}",
};

/// Events by their numbers, with many a null and lists of numbers.
pub(crate) const CATALOG: Document = Document {
    open: r#"{"areaNames": {"205705993": "Arrière-scène", "205705994": "1st balcony", "205705995": "Parterre"}, "events": {"#,
    frames: &[
        r#""1385$i": {"description": null, "id": 1385$i, "logo": $o, "name": "$s $s", "subTopicIds": [3371842$2, $m], "subjectCode": null, "subtitle": null, "topicIds": [$m, 324846$4]}"#,
    ],
    between: ", ",
    close: "}}",
};

/// Rings of points, each of two long decimals, without blanks.
pub(crate) const COORDINATES: Document = Document {
    open: r#"{"type":"Polygon","coordinates":["#,
    frames: &["[$c]"],
    between: ",",
    close: "]}",
};

/// Features: a few members, and a ring of points.
pub(crate) const GEOJSON: Document = Document {
    open: r#"{"type": "FeatureCollection", "features": ["#,
    frames: &[
        r#"{"type": "Feature", "properties": {"name": "Place $i", "iso": "X$2", "pop": $6, "area": $4.$4}, "geometry": {"type": "Polygon", "coordinates": [[$g]]}}"#,
    ],
    between: ", ",
    close: "]}",
};

/// Messages that are laid out, with escapes and many letters past ASCII.
pub(crate) const TWEETS: Document = Document {
    open: "{\n  \"statuses\": [\n",
    frames: &[
        r#"    {
      "metadata": {
        "result_type": "recent",
        "iso_language_code": "ja"
      },
      "created_at": "Sun Aug 31 00:29:15 +0000 2014",
      "id": 50587492409$8,
      "id_str": "50587492409$8",
      "text": "@user$4 $j\n\"$j\" #$w",
      "source": "<a href=\"http:\/\/twitter.com\/download\/iphone\" rel=\"nofollow\">Twitter for iPhone<\/a>",
      "truncated": false,
      "in_reply_to_status_id": $n,
      "in_reply_to_screen_name": null,
      "user": {
        "id": 11862$6,
        "id_str": "11862$6",
        "name": "$j😀",
        "screen_name": "ayuu$4",
        "description": "$j\n$j\u200d",
        "url": null,
        "entities": {
          "description": {
            "urls": []
          }
        },
        "protected": $b,
        "followers_count": $4,
        "friends_count": $2,
        "created_at": "Sat Feb 16 13:40:25 +0000 2013",
        "utc_offset": null,
        "verified": $b,
        "lang": "$l",
        "profile_background_color": "C0DEED",
        "profile_image_url": "http:\/\/pbs.twimg.com\/profile_images\/$9\/LDjAwR_y_normal.jpeg",
        "default_profile": true
      },
      "geo": null,
      "coordinates": null,
      "retweet_count": $2,
      "entities": {
        "hashtags": [$h],
        "symbols": [],
        "urls": [],
        "user_mentions": [
          {
            "screen_name": "aym$4",
            "name": "$j",
            "id": $9,
            "indices": [
              $2,
              $2
            ]
          }
        ]
      },
      "favorited": $b,
      "lang": "ja"
    }"#,
    ],
    between: ",\n",
    close: "\n  ]\n}\n",
};

/// Settings of services as people write them: names without quotes, single quotes, and comments.
pub(crate) const SETTINGS_FILE: Document = Document {
    open: "// Settings of the services\n{\n",
    frames: &[
        r#"  service$i: {
    // $t
    $w_$w0: $v,
    $w1: $v, // $s
    $w2: {
      $w_$w0: $v,
      // $t
      $w1: $v,
    },
    $w3: $v,
  },
"#,
        r#"  service$i: {
    $w0: $v,
    /* $t
       $t */
    $w1: [$v, $v, $v],
    // $t
    $w_$w2: $v,
    $w3: $v, // $t
    $w4: $v,
  },
"#,
        r#"  // $t
  service$i: {
    $w0: $v,
    $w1: {
      $w_$w0: $v,
      $w1: {
        // $t
        $w0: $v,
        $w1: [$v],
      },
    },
    $w_$w2: $v,
    $w3: $v,
  },
"#,
    ],
    between: "",
    close: "}\n",
};

const WORDS: &[&str] = &[
    "host", "label", "timeout", "retries", "cache", "level", "mode", "path", "limit", "interval",
    "enabled", "region", "bucket", "weight", "zone", "user",
];

const PLAIN_WORDS: &[&str] = &[
    "the", "quick", "brown", "fox", "jumps", "over", "a", "lazy", "dog", "and", "then", "goes",
    "home", "to", "sleep", "again", "with", "his", "friends", "in", "berlin", "today", "é", "für",
    "日本",
];

/// One in five is escaped.
const JAPANESE: &[&str] = &[
    "め", "っ", "ち", "ゃ", "わ", "か", "る", "前", "田", "最", "近", "な", "に", "し", "て", "の", "\\u65e5",
    "\\u4eca", "\\u306f", "\\u3044",
];

const ENDS: &[&str] = &["", "", "\\n", " \\\"x\\\""];

const LANGUAGES: &[&str] = &["en", "de", "ja"];

const SIGNS: &[&str] = &["", "-"];

const FLAGS: &[&str] = &["true", "false"];

const LOGOS: &[&str] = &["null", "\"/images/UE0AAAAACEKo6QAAAAZDSVRN\""];

impl Document {
    /// A document of about so many bytes.
    pub(crate) fn text(&self, alloc: Global, size: usize) -> Result<String, AllocError> {
        let mut maker = Maker {
            text: String::from_str(alloc, self.open)?,
            random: 77,
            items: 0,
        };
        for _ in 0..size {
            if maker.text.len() >= size {
                break;
            }
            maker.item(self)?;
        }
        maker.text.push_str(self.close)?;
        Ok(maker.text)
    }
}

/// A document in the making, and the state of its random numbers.
#[derive(Drop)]
struct Maker {
    text: String,
    random: u64,
    items: u64,
}

impl Maker {
    fn item(&mut self, document: &Document) -> Result<(), AllocError> {
        if self.items > 0 {
            self.text.push_str(document.between)?;
        }
        self.items = self.items.wrapping_add(1);
        let frame = self.pick(document.frames);
        self.fill(frame)
    }

    /// Writes a frame with its parts.
    fn fill(&mut self, frame: &str) -> Result<(), AllocError> {
        let mut pieces = frame.split('$');
        self.text.push_str(pieces.next().unwrap_or_default())?;
        for piece in pieces {
            let mut rest = piece.chars();
            self.part(rest.next().unwrap_or('$'))?;
            self.text.push_str(rest.as_str())?;
        }
        Ok(())
    }

    /// Writes the part that a sign stands for.
    fn part(&mut self, sign: char) -> Result<(), AllocError> {
        match sign {
            '2' => self.number(100),
            '4' => self.number(10_000),
            '6' => self.number(1_000_000),
            '8' => self.digits(),
            '9' => self.number(1_000_000_000),
            'i' => self.item_number(),
            'b' => self.one_of(FLAGS),
            'e' => self.one_of(ENDS),
            'l' => self.one_of(LANGUAGES),
            'o' => self.one_of(LOGOS),
            'n' => self.number_or_null(),
            'w' => self.one_of(WORDS),
            's' => self.words(1, 3),
            't' => self.words(6, 16),
            'j' => self.japanese(),
            'h' => self.tags(),
            'm' => self.numbers(),
            'c' => self.points(200, ",", true),
            'g' => self.points(60, ", ", false),
            'v' => self.setting(),
            _ => self.text.push(sign),
        }
    }

    /// A number below a bound, by a linear congruence.
    fn below(&mut self, bound: u64) -> u64 {
        self.random = self.random.wrapping_mul(6364136223846793005);
        self.random = self.random.wrapping_add(1442695040888963407);
        (self.random / 4_294_967_296)
            .checked_rem(bound)
            .unwrap_or(0)
    }

    fn between(&mut self, least: u64, most: u64) -> u64 {
        let spread = most.saturating_sub(least).saturating_add(1);
        self.below(spread).saturating_add(least)
    }

    fn pick(&mut self, list: &'static [&'static str]) -> &'static str {
        let n = self.below(list.len() as u64);
        list.get(n as usize).copied().unwrap_or_default()
    }

    fn one_of(&mut self, list: &'static [&'static str]) -> Result<(), AllocError> {
        let word = self.pick(list);
        self.text.push_str(word)
    }

    fn number(&mut self, bound: u64) -> Result<(), AllocError> {
        let n = self.below(bound);
        write!(self.text, "{n}")?;
        Ok(())
    }

    fn digits(&mut self) -> Result<(), AllocError> {
        let n = self.below(100_000_000);
        write!(self.text, "{n:08}")?;
        Ok(())
    }

    fn item_number(&mut self) -> Result<(), AllocError> {
        let n = self.items;
        write!(self.text, "{n:05}")?;
        Ok(())
    }

    fn number_or_null(&mut self) -> Result<(), AllocError> {
        match self.below(4) {
            0 => self.number(1_000_000_000),
            _ => self.text.push_str("null"),
        }
    }

    fn words(&mut self, least: u64, most: u64) -> Result<(), AllocError> {
        self.one_of(PLAIN_WORDS)?;
        for _ in 1..self.between(least, most) {
            self.text.push(' ')?;
            self.one_of(PLAIN_WORDS)?;
        }
        Ok(())
    }

    fn japanese(&mut self) -> Result<(), AllocError> {
        for _ in 0..self.between(3, 20) {
            self.one_of(JAPANESE)?;
        }
        Ok(())
    }

    /// Up to two quoted words.
    fn tags(&mut self) -> Result<(), AllocError> {
        for n in 0..self.below(3) {
            self.text.push_str(if n == 0 { "\"" } else { ", \"" })?;
            self.one_of(WORDS)?;
            self.text.push('"')?;
        }
        Ok(())
    }

    /// One to four numbers.
    fn numbers(&mut self) -> Result<(), AllocError> {
        self.number(1_000_000_000)?;
        for _ in 0..self.below(4) {
            self.text.push_str(", ")?;
            self.number(1_000_000_000)?;
        }
        Ok(())
    }

    /// A ring of points, with what stands between two numbers; long decimals, or long and short ones.
    fn points(&mut self, most: u64, between: &str, long: bool) -> Result<(), AllocError> {
        self.point(between, long)?;
        for _ in 0..self.between(most / 2, most) {
            self.text.push_str(between)?;
            self.point(between, long)?;
        }
        Ok(())
    }

    fn point(&mut self, between: &str, long: bool) -> Result<(), AllocError> {
        self.text.push('[')?;
        self.decimal(180, long)?;
        self.text.push_str(between)?;
        self.decimal(80, long)?;
        self.text.push(']')
    }

    /// A decimal with 14 digits behind the point, or six.
    fn decimal(&mut self, bound: u64, long: bool) -> Result<(), AllocError> {
        self.one_of(SIGNS)?;
        self.number(bound)?;
        let front = self.below(1_000_000);
        write!(self.text, ".{front:06}")?;
        if long || self.below(2) == 0 {
            self.digits()?;
        }
        Ok(())
    }

    /// A value of a setting.
    fn setting(&mut self) -> Result<(), AllocError> {
        match self.below(8) {
            0 => self.one_of(FLAGS),
            1 => self.number(100_000),
            2 => self.hexadecimal(),
            3 => self.price(),
            4 => self.quoted("/var/lib/", "/"),
            5 => self.quoted("https://", ".example.org/"),
            _ => self.quoted("", " "),
        }
    }

    fn hexadecimal(&mut self) -> Result<(), AllocError> {
        let n = self.below(16_777_216);
        write!(self.text, "0x{n:x}")?;
        Ok(())
    }

    fn price(&mut self) -> Result<(), AllocError> {
        self.number(100)?;
        let cents = self.below(100);
        write!(self.text, ".{cents:02}")?;
        Ok(())
    }

    /// A string in single quotes: a beginning, and two words with something between them.
    fn quoted(&mut self, front: &str, between: &str) -> Result<(), AllocError> {
        write!(self.text, "'{front}")?;
        self.one_of(WORDS)?;
        self.text.push_str(between)?;
        self.one_of(WORDS)?;
        self.text.push('\'')
    }
}
