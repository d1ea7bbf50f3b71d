//! The first lines of a page.

/// They say how it looks, and that nothing is to be loaded or carried out.
pub(crate) const FRONT: &str = "<!DOCTYPE html>
<html lang=\"en\">
<head>
<meta charset=\"utf-8\">
<meta http-equiv=\"Content-Security-Policy\" content=\"default-src 'none'; style-src 'unsafe-inline'\">
<title>What profiles leave open</title>
<style>
body { font-family: sans-serif; margin: 2em; }
table { border-collapse: collapse; }
th, td { border: 1px solid silver; padding: 0.3em 0.6em; text-align: left; vertical-align: top; }
td div { font-family: monospace; padding-left: 1em; text-indent: -1em; }
td.refused { background: honeydew; }
td.open { background: mistyrose; }
td.part { background: cornsilk; }
td.undecided { background: whitesmoke; }
pre { border: 1px solid gray; margin: 1em 0 0; padding: 0.3em 0.6em; width: max-content; }
p { margin: 0 0 0 2em; }
:target { outline: 3px solid royalblue; }
</style>
</head>
<body>
<h1>What profiles leave open</h1>
";
