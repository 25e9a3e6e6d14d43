//! Inputs that are read.

/// A page with each part of the language.
pub(crate) const README: &str = r#"{
  // comments
  unquoted: 'and you can quote me on that',
  singleQuotes: 'I can use "double quotes" here',
  lineBreaks: "Look, Mom! \
No \\n's!",
  hexadecimal: 0xdecaf,
  leadingDecimalPoint: .8675309, andTrailing: 8675309.,
  positiveSign: +1,
  trailingComma: 'in objects', andIn: ['arrays',],
  "backwardsCompatible": "with JSON",
}"#;

/// One bracket more than may be open at once.
pub(crate) const MOST: &str = "\
[[[[[[[[[[[[[[[[[[[[[[[[[[[[[[[[\
[[[[[[[[[[[[[[[[[[[[[[[[[[[[[[[[\
[[[[[[[[[[[[[[[[[[[[[[[[[[[[[[[[\
[[[[[[[[[[[[[[[[[[[[[[[[[[[[[[[[\
[";

/// The page of settings of `examples/settings.json5`.
pub(crate) const SETTINGS: &str =
    r#"// Settings of a made-up web server, with every part of the language.
// The same settings, formatted, stand in settings.formatted.json5.
{
  /* Names: bare where they are identifiers, in any script,
   * with escapes where that is handier; quoted where they are not. */
  name: 'Zoë\'s "little" server',
  $schema: "settings-3",
  _draft: false,
  größe: 'mittel',
  \u0061ge: null,               // the key age
  'content-type': 'text/html; charset=utf-8',
  "": 'the empty key is a key too',

  // Texts: either quote, escapes, and lines that go on.
  greeting: "Hello, \
you",
  motto: 'both " and \' in one',
  quote: "one \"kind\" alone",
  path: 'C:\\pages\\index.html',
  table: 'first\tsecond\nthird',
  music: "\uD83C\uDFBC", bell: '\x41\u0042\q',

  // Numbers.
  port: 0x1F90,
  mask: -0XfF,
  workers: +8,
  ratio: .75,
  timeout: 30.,
  small: -1.50e-3,
  large: 25E2,
  huge: 340282366920938463463374607431768211456,
  zero: -0, minus_zero: -0.0,
  limits: [Infinity, -Infinity, +Infinity, NaN, -NaN],

  /* Arrays and objects, empty ones and nested ones; a comma may stand after the last. */
  empty: [], nothing: { /* at all */ },
  hosts: [
    { host: 'a.example', tags: ['main', 'eu',], },
    { host: "b.example", tags: [], weights: [[1, .5], [0, 1e0]] },
  ],

  // A name may be given twice; both stay.
  log: true,
  log: { level: 'warn', to: ["stderr", 'file'], },
} // the end needs no line feed
"#;
